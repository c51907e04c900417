//! The sizes of a generated text, each as it is written, as a law. A law is a function without a body, whose contract is the law. The
//! text that is generated cites these sizes by their names, so another one is refused here.
ghost use Rattle.std.specs.Prelude.{◌≡◌};
ghost use Rattle.kc_report.specs.declared.sizes.TheConstants.{BATCHES, EDGE_LINES, IDS, TURNS};

/// How much of each thing a generated text has: its ids are below the first number.
pub fn a_generated_text_has_these_sizes()
    ensures ids { IDS ≡ 10000 }
    ensures edge_lines { EDGE_LINES ≡ 50000 }
    ensures batches { BATCHES ≡ 4 }
    ensures turns { TURNS ≡ 1000 }
{}
