//! What one line of a certificate claims.
ghost use Rattle.std.specs.Prelude.{◌≡◌};
ghost use Rattle.kc_text.specs.Forms.{is_comment};
ghost use Rattle.kc_text.specs.Lines.{fields};
ghost use Rattle.kc_claims.specs.Claims.{claim_form, claim_in, with_rank};

use crate::claim::Claim;
use kc_text::{Kind, cut_field, number};

fn is_comment(field: &[u8]) -> bool
    ensures { result ≡ is_comment field.now }
{
    match field.first() {
        Some(b) => *b == b'#' || *b == b'%',
        None => false,
    }
}

/// The claim of an id and a number, with the rank that stands behind them if there is one.
fn with_rank(line: u64, id: u32, told: u32, rest: &[u8]) -> Result<Claim, Kind>
    ensures { result ≡ with_rank line id told (fields rest.now) }
{
    let Some((third, rest)) = cut_field(rest) else {
        return Ok(Claim {
            line,
            id,
            number: told,
            rank: None,
        });
    };
    let rank = number(third)?;
    if cut_field(rest).is_some() {
        return Err(Kind::ExtraField);
    }
    Ok(Claim {
        line,
        id,
        number: told,
        rank: Some(rank),
    })
}

/// The claim that is all of the text's fields.
fn claim_form(line: u64, text: &[u8]) -> Result<Claim, Kind>
    ensures { result ≡ claim_form line (fields text.now) }
{
    let Some((first, rest)) = cut_field(text) else {
        return Err(Kind::MissingField);
    };
    let id = number(first)?;
    let Some((second, rest)) = cut_field(rest) else {
        return Err(Kind::MissingField);
    };
    let told = number(second)?;
    with_rank(line, id, told, rest)
}

/// What a line claims. A line that is blank or a comment claims nothing.
pub(crate) fn claim_in(line: u64, text: &[u8]) -> Result<Option<Claim>, Kind>
    ensures { result ≡ claim_in line (fields text.now) }
{
    let Some((first, _)) = cut_field(text) else {
        return Ok(None);
    };
    if is_comment(first) {
        return Ok(None);
    }
    match claim_form(line, text) {
        Ok(claim) => Ok(Some(claim)),
        Err(kind) => Err(kind),
    }
}
