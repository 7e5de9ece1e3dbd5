//! The calls of a thread.
use crate::fault::Fault;
use crate::threads::plan::Part;
use crate::threads::spans::{Span, Spans};
use crate::threads::start::StartLine;
use caller_pass::Pass;
use ring_node::SharedRange;
use std::alloc::Global;
use std::sync::Wait;
use std::sync::ledger::Ledger;
use std::time::{Clock, Instant};
use vclock::{Clock as VersionClock, Refusal};
use version_set::Kind;

/// The lines where the threads wait for one another: before the puts, and before the gets.
#[derive(Drop)]
pub(crate) struct Starts {
    puts: StartLine,
    gets: StartLine,
}

impl Starts {
    /// Returns the lines for this number of threads.
    pub(crate) fn new(threads: u16) -> Starts {
        Starts {
            puts: StartLine::new(threads),
            gets: StartLine::new(threads),
        }
    }
}

/// Puts the keys of a part into a range, and gets them. Each phase begins when all threads have reached it.
pub(crate) fn put_and_get<L: Ledger, R: Wait + Clock>(
    rt: &R,
    alloc: Global,
    range: &SharedRange<L>,
    pass: &mut Pass<L>,
    starts: &Starts,
    part: Part,
) -> Result<Spans, Fault> {
    starts.puts.meet(rt)?;
    let from = Instant::now(rt)?;
    put_all(rt, alloc, range, pass, part)?;
    let puts = Span {
        from,
        to: Instant::now(rt)?,
    };
    starts.gets.meet(rt)?;
    let from = Instant::now(rt)?;
    get_all(rt, alloc, range, pass, part)?;
    Ok(Spans {
        puts,
        gets: Span {
            from,
            to: Instant::now(rt)?,
        },
    })
}

/// Puts the keys of a part. Refused as [`SharedRange::put`] is.
fn put_all<L: Ledger, R: Wait>(
    rt: &R,
    alloc: Global,
    range: &SharedRange<L>,
    pass: &mut Pass<L>,
    part: Part,
) -> Result<(), Refusal> {
    let context = VersionClock::from_pairs(alloc, &[])?;
    for number in part.from..part.to {
        let (key, value) = (
            part.shape.key(alloc, number)?,
            part.shape.value(alloc, number)?,
        );
        range.put(rt, alloc, pass, key.as_slice(), &context, Kind::Live, value)?;
    }
    Ok(())
}

/// Gets the keys of a part. Refused as [`SharedRange::get`] is.
fn get_all<L: Ledger, R: Wait>(
    rt: &R,
    alloc: Global,
    range: &SharedRange<L>,
    pass: &mut Pass<L>,
    part: Part,
) -> Result<(), Refusal> {
    for number in part.from..part.to {
        let key = part.shape.key(alloc, number)?;
        if let Err(unread) = range.get(rt, alloc, pass, key.as_slice()) {
            return Err(unread.into_refusal());
        }
    }
    Ok(())
}
