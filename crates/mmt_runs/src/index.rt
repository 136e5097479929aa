//! The index of the units that have a time, in the order in which units are handed out.

ghost use Rattle.std.specs.Prelude.{◌≡◌, true, IfSome};
ghost use Rattle.mmt_pool.specs.declared.types.Span.{Span};

use mmt_pool::Span;
use std::collections::BTreeSet;

/// The place of a unit in the order in which units are handed out, as numbers, and the span of the
/// packet that it begins in.
#[derive(Clone, Copy, PartialEq, Eq, PartialOrd, Ord)]
pub(crate) struct Due {
    pub numbers: [u64; 9],
    pub span: Span,
}

/// The same, with the span first.
#[derive(Clone, Copy, PartialEq, Eq, PartialOrd, Ord)]
pub(crate) struct Begun {
    pub span: Span,
    pub numbers: [u64; 9],
}

ghost use Rattle.mmt_runs.specs.Index.{IsIn, IsBegun, Keeps, KeepsOthers};

/// Puts a unit into the index, and beside it; whether there was memory for both.
pub(crate) fn put(index: &mut BTreeSet<Due>, begun: &mut BTreeSet<Begun>, due: Due) -> bool
    ensures put { result ≡ true → IsIn index.new.keys due }
    ensures keeps { Keeps index.old.keys index.new.keys }
{
    let Due { numbers, span } = due;
    if let Err(_) = begun.insert(Begun { span, numbers }) {
        return false;
    }
    match index.insert(due) {
        Ok(_) => true,
        Err(_) => false,
    }
}

// The first unit of a packet.
fn first_of(begun: &BTreeSet<Begun>, span: Span) -> Option<Begun>
    ensures { IfSome result (λ b. (b.span ≡ span) × IsBegun begun.now.keys b) }
{
    let first = begun
        .range(
            Begun {
                span,
                numbers: [0; 9],
            }..,
        )
        .next()?;
    if first.span == span {
        Some(*first)
    } else {
        None
    }
}

/// Takes the units of a packet out of the index.
pub(crate) fn take_out(index: &mut BTreeSet<Due>, begun: &mut BTreeSet<Begun>, span: Span)
    ensures { KeepsOthers index.old.keys index.new.keys span }
{
    'units: while let Some(found) = first_of(begun, span) {
        let numbers = found.numbers;
        let _ = begun.remove(&Begun { span, numbers });
        let _ = index.remove(&Due { numbers, span });
    }
}
