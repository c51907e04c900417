//! What is told of a certificate, and of a line of it that is refused.
ghost use Rattle.std.specs.Prelude.{◌≡◌, IfOk, string_bytes};
ghost use Rattle.kc_cores.specs.Endings.{TellsClaimRefusal};
ghost use Rattle.kc_cores.specs.Verdicts.{claim_refusal, claim_refused_line, claim_sentence, fault_line, no_line};

use crate::CoresStatus;
use crate::ending::Ending;
use crate::message::Message;
use kc_claims::ClaimFault;
use kc_graph::NoMemory;
use kc_text::{Kind, Refusal};
use std::alloc::Global;

/// `no`, and the id that is at fault.
pub(crate) fn no_line(alloc: Global, fault: ClaimFault) -> Result<String, NoMemory>
    ensures { IfOk result (λ line. string_bytes line ≡ no_line fault) }
{
    let id = fault.id();
    format!(in alloc; "no\t{id}\n")
}

/// What is wrong with the certificate of this name, and how it is mended where that is told.
pub(crate) fn fault_line(alloc: Global, name: &str, fault: ClaimFault) -> Result<String, NoMemory>
    ensures { IfOk result (λ line. string_bytes line ≡ fault_line name.now fault) }
{
    match fault {
        ClaimFault::Unknown(claim) => {
            let (line, id) = (claim.line, claim.id);
            format!(in alloc;
                "cores: {name}: line {line}: id {id} is not in the graph; remove the line or take the graph that it was made for\n"
            )
        }
        ClaimFault::Repeated(claim) => {
            let (line, id) = (claim.line, claim.id);
            format!(in alloc;
                "cores: {name}: line {line}: id {id} is told twice; keep one line of it\n"
            )
        }
        ClaimFault::Missing(id) => {
            format!(in alloc;
                "cores: {name}: id {id} of the graph has no line; add it or write the certificate anew with cores order\n"
            )
        }
        ClaimFault::ManyLater(claim, count) => {
            let (line, id, number) = (claim.line, claim.id, claim.number);
            format!(in alloc;
                "cores: {name}: line {line}: id {id} is told core number {number}, but has more neighbours after it: {count}; write it by cores order\n"
            )
        }
        ClaimFault::FewSupporters(claim, count) => {
            let (line, id, number) = (claim.line, claim.id, claim.number);
            format!(in alloc;
                "cores: {name}: line {line}: id {id} is told core number {number}, but has fewer neighbours told as much or more: {count}\n"
            )
        }
    }
}

/// What was found wrong with a line of a certificate, and how it is mended.
fn claim_sentence(kind: Kind) -> &'static str
    ensures { result.now ≡ claim_sentence kind }
{
    match kind {
        Kind::NotANumber => {
            "a field is not a whole number; write an id and its core number, or begin the line with # if it is a comment"
        }
        Kind::MissingField => {
            "the core number is missing; write an id and its core number with a blank or a tab between them"
        }
        Kind::ExtraField => {
            "there are more than three numbers; keep the id, its core number and its layer"
        }
        Kind::NumberTooLarge => "a number is greater than 4294967295; write a smaller one",
        _ => "there are more bytes than cores takes; remove comments",
    }
}

/// Which line is refused, and why.
fn claim_refusal(alloc: Global, refusal: Refusal) -> Result<String, NoMemory>
    ensures { IfOk result (λ line. string_bytes line ≡ claim_refusal refusal) }
{
    let Refusal { line, kind } = refusal;
    let sentence = claim_sentence(kind);
    if line == 0 {
        format!(in alloc; "input: {sentence}\n")
    } else {
        format!(in alloc; "line {line}: {sentence}\n")
    }
}

fn claim_refused_line(alloc: Global, name: &str, refusal: Refusal) -> Result<String, NoMemory>
    ensures { IfOk result (λ line. string_bytes line ≡ claim_refused_line name.now refusal) }
{
    let told = claim_refusal(alloc, refusal)?;
    format!(in alloc; "cores: {name}: {told}")
}

/// A line of the certificate is refused.
pub(crate) fn claim_refused(alloc: Global, name: &str, refusal: Refusal) -> Ending
    ensures { TellsClaimRefusal result name.now refusal }
{
    match claim_refused_line(alloc, name, refusal) {
        Ok(line) => Ending {
            status: CoresStatus::Refused,
            message: Message::Made(line),
        },
        Err(_) => Ending::no_memory(),
    }
}
