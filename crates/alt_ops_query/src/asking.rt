//! What is asked of a page.

ghost use Rattle.std.specs.Prelude.{◌≡◌, ◌<◌, IfSome, codes};
ghost use Rattle.serde_json.specs.View.{members_view};
ghost use Rattle.alt_ops_query.specs.private.Paged.{asked_page, limit_in};
ghost use Rattle.alt_machine.specs.Ops.Scan.{whole_at};

use crate::selecting::selects;
use alt_expr::{Cond, Paths};
use alt_paging::PageAsk;
use alt_shape::whole_at;
use serde_json::{Map, Value};

/// What a body asks of its page, with the filter and the paths that its expressions say.
pub(crate) fn page_ask(
    body: &Map<String, Value>,
    filter: Option<Cond>,
    paths: Option<Paths>,
) -> PageAsk
    ensures asks { result ≡ asked_page (members_view body.now.entries) filter paths }
    ensures limit { IfSome result.limit (λ most. 0 < most) }
{
    PageAsk {
        limit: limit_of(body),
        filter,
        paths,
        count_only: selects(body, "COUNT"),
    }
}

/// The most items that are examined, where a limit is given.
fn limit_of(body: &Map<String, Value>) -> Option<u32>
    ensures limit { result ≡ limit_in (whole_at (codes "Limit") (members_view body.now.entries)) }
    ensures some { IfSome result (λ most. 0 < most) }
{
    match whole_at(body, "Limit") {
        Some(most) if most > 0 => u32::try_from(most).ok(),
        _ => None,
    }
}
