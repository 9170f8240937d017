//! What follows of files and of tables that stand for a state from the definitions, for the callers' proofs.

ghost use Rattle.alt_tables.specs.Laws.{OneState, OneInHand, FilesStand, EachLeft, TablesStayQuiet, MadeStands, ItemTurns};

/// An image stands for at most one state, and so do tables in hand. Where tables stand for one, so do the files as they read and
/// whatever a stop now leaves; and the tables do so while calls leave every file. Files without rows stand for the empty store. The row changes
/// of a write of an item turn the rows of the state before it into those of the state after it.
pub fn tables_laws()
    ensures one_state { OneState }
    ensures one_in_hand { OneInHand }
    ensures files { FilesStand }
    ensures left { EachLeft }
    ensures stays_quiet { TablesStayQuiet }
    ensures made { MadeStands }
    ensures item_turns { ItemTurns }
{}
