//! Books of passes.
ghost use Rattle.std.specs.Prelude.{◌≡◌};

use crate::lines::show;
use caller_pass::{Book, Pass, open_passes};
use std::alloc::Global;
use std::io;
use std::marker::Brand;
use std::sync::ledger::{Blank, Ledger};
use vclock::Refusal;

/// Shows the calls on a book.
pub(crate) fn show_all<R: Print + AllocGlobal>(rt: &R) -> io::Result<()> {
    let alloc = rt.alloc();
    show(rt, "open_passes", opened::<Brand>(alloc, Blank::new(2)))?;
    show(rt, "Book::absorb", absorbed::<Brand>(alloc, Blank::new(2)))
}

/// Returns the number of passes of a book with two seats.
fn opened<L: Ledger>(alloc: Global, blank: Blank) -> Result<u64, Refusal>
    requires { (blank.name ≡ L.name) × (blank.parts ≡ L.parts) × (blank.parts ≡ 2) }
{
    let (_book, passes) = open_passes::<L>(blank, alloc, 2)?;
    Ok(passes.len() as u64)
}

/// Returns the number of passes that the book absorbed.
fn absorbed<L: Ledger>(alloc: Global, blank: Blank) -> Result<u64, Refusal>
    requires { (blank.name ≡ L.name) × (blank.parts ≡ L.parts) × (blank.parts ≡ 2) }
{
    let (mut book, passes) = open_passes::<L>(blank, alloc, 2)?;
    let mut count = 0u64;
    let mut refused = false;
    for pass in passes {
        refused = absorb(&mut book, pass)? || refused;
        count = count.saturating_add(1);
    }
    if refused {
        Err(Refusal::NoMemory)
    } else {
        Ok(count)
    }
}

/// Absorbs a pass, and returns true if that was refused once, in which case the refusal returned the pass of that seat.
fn absorb<L: Ledger>(book: &mut Book<L>, pass: Pass<L>) -> Result<bool, Refusal> {
    let (seat, seats) = (pass.seat(), book.seats());
    let Err(refused) = book.absorb(pass) else {
        return Ok(false);
    };
    let is_same = refused.pass.seat() == seat && refused.pass.receipts().is_empty();
    if !is_same || book.seats() != seats || book.absorb(refused.pass).is_err() {
        return Err(Refusal::Dirty);
    }
    Ok(true)
}
