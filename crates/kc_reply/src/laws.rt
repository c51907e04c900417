//! What holds of the texts of lines, as laws over the definitions alone. A law is a function without a body, whose contract is the law.
ghost use Rattle.kc_reply.specs.Facts.{Fact};
ghost use Rattle.kc_reply.specs.Texts.{IsOneLine, fact_text};
ghost use Rattle.kc_reply.specs.declared.reply_format.ReplyFormat.{ReplyFormat};

/// The text of each fact is one line, in each format. So facts have as many lines as there are facts, and line by line two formats tell the same.
pub fn each_fact_is_one_line()
    ensures { (format : ReplyFormat) (fact : Fact) → IsOneLine (fact_text format fact) }
{}
