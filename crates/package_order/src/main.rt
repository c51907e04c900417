//! Reads which package needs which other from standard input, two names a line, and keeps an order in which each package stands behind all
//! that it needs. A need that would close a cycle is refused, with the cycle. At the end it writes the packages in their order.
//!
//! It shows how `kc_topo` is used: arcs come one by one, the order moves no more than it has to, and is asked for by comparisons.
#![tactic(auto)]

ghost use Rattle.std.specs.Prelude.{◌≤◌, IfSome};
ghost use Rattle.kc_words.specs.declared.layout.TheConstants.{VERTICES};

mod needs;
mod ordering;

use crate::needs::{Needs, needs_in};
use crate::ordering::{PackageOrder, Refusal, keep_all};
use anyhow::{Result, bail};
use kc_words::VERTICES;
use std::io::Read;

/// All of standard input, as text.
fn read_text(rt: &HostRuntime) -> Result<String> {
    let mut text = String::new(rt.alloc());
    rt.stdin().read_to_string(&mut text)?;
    Ok(text)
}

/// How many packages there are, where these can be kept in order: none where there is none, or where there are too many.
fn packages_in(needs: &Needs) -> Option<u32>
    ensures low { IfSome result (λ packages. 1 ≤ packages) }
    ensures high { IfSome result (λ packages. packages ≤ VERTICES) }
{
    let packages = needs.names.len();
    if packages == 0 || packages > VERTICES as usize {
        return None;
    }
    Some(packages as u32)
}

/// Writes why needs were refused: for each the walk of needs that leads back.
fn write_refusals(rt: &HostRuntime, needs: &Needs, refusals: &[Refusal]) -> Result<()> {
    for refusal in refusals {
        write_refusal(rt, needs, refusal)?;
    }
    Ok(())
}

/// Writes why a need was refused: the walk of needs that leads back.
fn write_refusal(rt: &HostRuntime, needs: &Needs, refusal: &Refusal) -> Result<()> {
    print!(rt; "refused:")?;
    for package in &refusal.walk {
        print!(rt; " {} <-", needs.name_of(*package))?;
    }
    match refusal.walk.first() {
        Some(package) => println!(rt; " {}", needs.name_of(*package))?,
        None => println!(rt; "")?,
    }
    Ok(())
}

/// Writes packages, one a line.
fn write_packages(rt: &HostRuntime, needs: &Needs, packages: &[u32]) -> Result<()> {
    for package in packages {
        println!(rt; "{}", needs.name_of(*package))?;
    }
    Ok(())
}

/// Keeps the packages in order while their needs come, and writes what was refused.
fn keep_needs(rt: &HostRuntime, needs: &Needs, order: &mut PackageOrder) -> Result<()> {
    let refusals = keep_all(rt.alloc(), order, &needs.pairs)?;
    write_refusals(rt, needs, &refusals)
}

/// Writes the packages in their order.
fn write_order(rt: &HostRuntime, needs: &Needs, order: &mut PackageOrder) -> Result<()> {
    let packages = order.packages(rt.alloc())?;
    write_packages(rt, needs, &packages)
}

/// Keeps the packages in an order while their needs come, and writes what was refused, and the order at the end.
fn keep_in(rt: &HostRuntime, needs: &Needs, order: &mut PackageOrder) -> Result<()> {
    keep_needs(rt, needs, order)?;
    write_order(rt, needs, order)
}

/// Keeps so many packages in an order, and writes what came of it.
fn keep_and_write(rt: &HostRuntime, needs: &Needs, packages: u32) -> Result<()>
    requires low { 1 ≤ packages }
    requires high { packages ≤ VERTICES }
{
    let mut order = PackageOrder::new(rt.alloc(), packages)?;
    keep_in(rt, needs, &mut order)
}

fn main(rt: HostRuntime) -> Result<()> {
    let text = read_text(&rt)?;
    let needs = needs_in(rt.alloc(), &text)?;
    match packages_in(&needs) {
        Some(packages) => keep_and_write(&rt, &needs, packages),
        None => bail!("no packages, or too many"),
    }
}
