//! The input of a run.
ghost use Rattle.std.specs.Prelude.{◌≡◌, IfErr, IfOk, IfSome, None, OnOk, Some, is_some, true};
ghost use Rattle.std.specs.Io.KnownBytes.{IsAtEnd};
ghost use Rattle.kc_top.specs.Given.{generated_or};
ghost use Rattle.kc_top.specs.Inputs.{IsReadFrom};
ghost use Rattle.kc_top.specs.Stops.{HasNoText, IsRefusalOf};

use crate::ending::{Stop, refused};
use kc_io::source::{ReadAllFault, Source, read_all};
use kc_report::generate;
use kc_text::{Input, Kind, Limits, ParseFault, Refusal, parse_by};
use kc_threads::{Crew, Threaded};
use std::alloc::Global;

/// The input as a whole has too many bytes.
const TOO_LONG: Refusal = Refusal {
    line: 0,
    kind: Kind::TooLong,
};

/// All bytes of the source.
fn bytes_from<S: Source>(alloc: Global, source: &mut S) -> Result<Vec<u8>, Stop>
    ensures bytes { IfOk result (λ bytes. IfSome (S.left source.old) (λ known. bytes.items ≡ known)) }
    ensures read { OnOk result (IsAtEnd (S.left source.new)) }
    ensures stopped { IfErr result (λ stop. HasNoText stop (S.left source.old) (S.faults source.old) (S.faults source.new)) }
    ensures faultless { OnOk result (S.faults source.new ≡ S.faults source.old) }
{
    match read_all(alloc, source, Limits::KCORE.bytes) {
        Ok(bytes) => Ok(bytes),
        Err(ReadAllFault::ReadFault) => Err(Stop::ReadFault),
        Err(ReadAllFault::TooLong) => Err(refused(alloc, TOO_LONG)),
        Err(ReadAllFault::NoMemory) => Err(Stop::NoMemory),
    }
}

/// The bytes of the input: those that are generated for the number, where there is one, or else all of the source.
fn bytes_of<S: Source>(
    alloc: Global,
    generator: Option<u32>,
    source: &mut S,
) -> Result<Vec<u8>, Stop>
    ensures bytes { IfOk result (λ bytes. IfSome (generated_or generator (S.left source.old)) (λ known. bytes.items ≡ known)) }
    ensures read { OnOk result (generator ≡ None → IsAtEnd (S.left source.new)) }
    ensures unread { is_some generator ≡ true → source.new ≡ source.old }
    ensures accepted { is_some generator ≡ true → IfErr result (λ stop. stop ≡ Stop.NoMemory) }
    ensures stopped { IfErr result (λ stop. HasNoText stop (generated_or generator (S.left source.old)) (S.faults source.old) (S.faults source.new)) }
    ensures faultless { OnOk result (S.faults source.new ≡ S.faults source.old) }
{
    match generator {
        Some(number) => Ok(generate(alloc, number)?),
        None => bytes_from(alloc, source),
    }
}

/// The input that the bytes give, which are dropped. Up to so many threads of the crew read their lines.
fn parsed<C: Crew>(alloc: Global, crew: &C, threads: u32, bytes: Vec<u8>) -> Result<Input, Stop>
    requires shareable { ∥ C.shareable crew.now ∥₁ }
    ensures input { IfOk result (IsReadFrom (Some bytes.items)) }
    ensures stopped { IfErr result (λ stop. IsRefusalOf stop bytes.items) }
{
    match parse_by(alloc, Limits::KCORE, &Threaded::new(crew), threads, &bytes) {
        Ok(input) => Ok(input),
        Err(ParseFault::Refused(refusal)) => Err(refused(alloc, refusal)),
        Err(ParseFault::NoMemory) => Err(Stop::NoMemory),
    }
}

/// The input of the run, from the generator's number or the source. Up to so many threads of the crew read its lines.
pub(crate) fn input_of<C: Crew, S: Source>(
    alloc: Global,
    crew: &C,
    threads: u32,
    generator: Option<u32>,
    source: &mut S,
) -> Result<Input, Stop>
    requires shareable { ∥ C.shareable crew.now ∥₁ }
    ensures input { IfOk result (IsReadFrom (generated_or generator (S.left source.old))) }
    ensures read { OnOk result (generator ≡ None → IsAtEnd (S.left source.new)) }
    ensures unread { is_some generator ≡ true → source.new ≡ source.old }
    ensures accepted { is_some generator ≡ true → IfErr result (λ stop. stop ≡ Stop.NoMemory) }
    ensures stopped { IfErr result (λ stop. HasNoText stop (generated_or generator (S.left source.old)) (S.faults source.old) (S.faults source.new)) }
    ensures faultless { OnOk result (S.faults source.new ≡ S.faults source.old) }
{
    let bytes = bytes_of(alloc, generator, source)?;
    parsed(alloc, crew, threads, bytes)
}
