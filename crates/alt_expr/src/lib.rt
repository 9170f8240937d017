//! Expressions: their tokens, their trees, and what the trees mean.
#![tactic(auto)]

mod all;
mod boxed;
mod cond;
mod cursor;
mod fault;
mod grouping;
mod items;
mod lexer;
mod locating;
mod lookups;
mod names;
mod nesting;
mod overlap;
mod path;
mod path_text;
mod shared;
mod token;
mod undefined;
mod update;
mod values;
mod view;
mod word_values;

pub use all::tokens;
pub use boxed::Boxed;
pub use cond::{Comparison, Cond, CondList, Operand, OperandList};
pub use cursor::Cursor;
pub use fault::ExprFault;
pub use grouping::{gathered, groups};
pub use items::Items;
pub use lexer::{At, Lexer};
pub use locating::{located, part, stepped};
pub use lookups::Lookups;
pub use names::Names;
pub use nesting::is_too_deep;
pub use overlap::some_overlap;
pub use path::{Path, PathPart, Paths};
pub use path_text::{read_path, read_path_in_brackets};
pub use shared::Shared;
pub use token::{Keyword, Mark, Token, same_keyword, same_mark};
pub use undefined::is_undefined;
pub use update::{Action, Sum, Term, Update};
pub use values::Values;
pub use view::AttrView;
