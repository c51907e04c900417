//! Reads the claims of a text.
ghost use Rattle.std.specs.Prelude.{◌≡◌, ◌++◌, Err, IfOk, IsErrOf, Ok, OnOk};
ghost use Rattle.std.specs.Option.{option_to_list};
ghost use Rattle.kc_text.specs.declared.refusal.Refusal.{Refusal};
ghost use Rattle.kc_claims.specs.Claims.{claims_of};

use crate::claim::Claim;
use crate::claim_line::claim_in;
use crate::fault::TextFault;
use kc_graph::NoMemory;
use kc_text::{Refusal, cut_line};
use std::alloc::Global;

/// Puts a claim behind others, if there is one.
fn put(claims: &mut Vec<Claim>, found: Option<Claim>) -> Result<(), NoMemory>
    ensures { OnOk result (claims.new.items ≡ claims.old.items ++ option_to_list found) }
{
    if let Some(claim) = found {
        claims.push(claim)?;
    }
    Ok(())
}

/// The claims of all lines of a text, in their order.
///
/// `Refused` comes exactly where a line is neither blank nor a comment and has not two numbers, or three. It tells the first such line, and
/// the first thing that is wrong with it from the left. `NoMemory` comes where there is none for the claims, which take 24 bytes each.
///
/// # Example
///
/// ```rust
/// use kc_claims::claims_of;
///
/// let claims = claims_of(alloc, b"# an id, its core number and its rank\n7 2 0\n8 2 1\n")?;
/// let first = claims.first(); // Some(Claim { line: 2, id: 7, number: 2, rank: Some(0) })
/// let fault = claims_of(alloc, b"7 2\n8\n").err(); // Refused, line 2, Kind::MissingField
/// ```
pub fn claims_of(alloc: Global, text: &[u8]) -> Result<Vec<Claim>, TextFault>
    ensures claims { IfOk result (λ claims. claims_of text.now ≡ Ok claims.items) }
    ensures refused { (refusal : Refusal) → IsErrOf result (TextFault.Refused refusal) → claims_of text.now ≡ Err refusal }
{
    let mut claims = Vec::new(alloc);
    let mut line = 0u64;
    let mut rest = text;
    while let Some((first, others)) = cut_line(rest) {
        line += 1;
        match claim_in(line, first) {
            Err(kind) => return Err(TextFault::Refused(Refusal { line, kind })),
            Ok(found) => put(&mut claims, found)?,
        }
        rest = others;
    }
    Ok(claims)
}
