//! What the plain text of a text in a dialect means, as laws. A law is a function without a body, whose contract is the law.
ghost use Rattle.std.specs.Prelude.{◌≡◌, ◌≤◌, ◌++◌, [], ℕ, List, None, length};
ghost use Rattle.kc_text.specs.Forms.{all_said};
ghost use Rattle.kc_text.specs.Lines.{EndsLine, lines};
ghost use Rattle.kc_text.specs.Meaning.{Means, Told, meaning};
ghost use Rattle.kc_text.specs.declared.limits.Limits.{Limits};
ghost use Rattle.kc_dialect.specs.declared.dialect.Dialect.{Dialect};
ghost use Rattle.kc_dialect.specs.declared.dialect.Ids.TheVariants.{Numbers};
ghost use Rattle.kc_dialect.specs.declared.dialect.TheConstants.Dialect.{PLAIN};
ghost use Rattle.kc_dialect.specs.Dialects.{bad_lines, bad_lines_after, plain_lines, plain_text};
ghost use Rattle.kc_dialect.specs.Sayings.{said_in};

/// Where ids are numbers, the plain text says line by line what the lines say in their dialect: the edge between the two numbers, or
/// nothing.
pub fn a_plain_text_says_what_its_lines_say()
    ensures { (dialect : Dialect) (bytes : List ℕ) → dialect.ids ≡ Numbers → all_said (plain_text dialect bytes) ≡ said_in dialect bytes }
{}

/// A text of a graph that means something without batches says the same, line by line, in the plain dialect, and no line of it is bad
/// there. So its plain text means the same, within limits that have room for it.
pub fn a_plain_dialect_keeps_the_meaning()
    ensures says { (limits : Limits) (bytes : List ℕ) (told : Told) → meaning limits bytes ≡ Means told → told.last ≡ None
        → all_said (plain_text PLAIN bytes) ≡ all_said bytes }
    ensures good { (limits : Limits) (bytes : List ℕ) (told : Told) → meaning limits bytes ≡ Means told → told.last ≡ None → bad_lines PLAIN bytes ≡ [] }
    ensures means { (limits : Limits) (bytes : List ℕ) (told : Told) → meaning limits bytes ≡ Means told → told.last ≡ None
        → length (plain_text PLAIN bytes) ≤ limits.bytes → meaning limits (plain_text PLAIN bytes) ≡ Means told }
{}

/// Where a text is cut behind a line end, its plain text is that of the first piece, and behind it the plain lines of the second, which
/// count on from the lines before them. So are its bad lines.
pub fn a_cut_text_is_rewritten_piece_by_piece()
    ensures text { (dialect : Dialect) (first second : List ℕ) → EndsLine first
        → plain_text dialect (first ++ second) ≡ plain_text dialect first ++ plain_lines dialect (length (lines first)) (lines second) }
    ensures bad { (dialect : Dialect) (first second : List ℕ) → EndsLine first
        → bad_lines dialect (first ++ second) ≡ bad_lines dialect first ++ bad_lines_after dialect (length (lines first)) (lines second) }
{}
