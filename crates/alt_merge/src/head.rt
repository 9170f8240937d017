//! The row at the front of a source, once it was asked for.

ghost use Rattle.std.specs.Prelude.{◌≡◌, IfSome, IfNone, false};
ghost use Rattle.alt_merge.specs.declared.head.Head.TheVariants.{Due, Held, End};
ghost use Rattle.alt_merge.specs.Tied.{is_head_tied, comes_before};
ghost use Rattle.alt_merge.specs.Merges.{HeadHoldsRow};

use alt_cells::RowCells;
use alt_fields::Bytes;
use std::mem;

#[derive(Drop)]
pub(crate) enum Head {
    Due,
    Held(Bytes, RowCells),
    End,
}

/// Takes the row in hand.
pub(crate) fn take_row(head: &mut Head) -> Option<(Bytes, RowCells)>
    ensures some { IfSome result (λ e. (head.old ≡ Held e.0 e.1) × (head.new ≡ Due)) }
    ensures none { IfNone result ((head.new ≡ head.old) × (HeadHoldsRow head.old → ⊥)) }
{
    match mem::replace(head, Head::Due) {
        Head::Held(key, row) => Some((key, row)),
        other => {
            *head = other;
            None
        }
    }
}

fn is_tied(key: &Bytes, head: &Head) -> bool
    ensures { result ≡ is_head_tied key.now head.now }
{
    match head {
        Head::Held(other, _) => key.cmp(other).is_eq(),
        _ => false,
    }
}

/// Takes the row in hand if it is the key's.
pub(crate) fn take_tied(key: &Bytes, head: &mut Head) -> Option<RowCells>
    ensures some { IfSome result (λ row. (head.old ≡ Held key.now row) × (head.new ≡ Due)) }
    ensures none { IfNone result ((head.new ≡ head.old) × (is_head_tied key.now head.old ≡ false)) }
{
    if !is_tied(key, head) {
        return None;
    }
    match mem::replace(head, Head::Due) {
        Head::Held(_, row) => Some(row),
        other => {
            *head = other;
            None
        }
    }
}

pub(crate) fn before(key: &Bytes, head: &Head, forward: bool) -> bool
    ensures { result ≡ comes_before forward key.now head.now }
{
    match head {
        Head::Held(other, _) => {
            if forward {
                key.cmp(other).is_lt()
            } else {
                other.cmp(key).is_lt()
            }
        }
        _ => true,
    }
}
