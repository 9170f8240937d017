//! What is read of a table of a BatchGetItem before its keys have places.

ghost use Rattle.serde_json.specs.View.{members_view};
ghost use Rattle.alt_ops_batch.specs.private.Names.{ArePlain, ArePlainNames};
ghost use Rattle.alt_request.specs.Words.{AreFreshWords};

use alt_expr::Paths;
use alt_machine::BatchMember;
use alt_request::Given;
use alt_value::Text;
use serde_json::{Map, Value};

/// The keys that are read in a table and the names that are given for its projection.
#[derive(Drop)]
pub(crate) struct KeysRead<'b> {
    pub(crate) table: Text,
    pub(crate) body: &'b Map<String, Value>,
    pub(crate) given: Given,
    pub(crate) keys: Vec<BatchMember>,
    ghost fresh: { AreFreshWords (members_view body.now.entries) given },
    ghost plain: { ArePlainNames (members_view body.now.entries) },
}

/// The keys that are read in a table and what its projection shows.
#[derive(Drop)]
pub(crate) struct KeysSaid<'b> {
    pub(crate) table: Text,
    pub(crate) body: &'b Map<String, Value>,
    pub(crate) projection: Option<Paths>,
    pub(crate) keys: Vec<BatchMember>,
    ghost plain: { ArePlain (members_view body.now.entries) },
}
