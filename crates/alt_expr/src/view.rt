//! What an expression is evaluated over: an item, seen as a finite map from names to values.

ghost use Rattle.std.specs.Prelude.{◌≡◌, option_map};
ghost use Rattle.alt_value.specs.Stands.{tree_of};

use alt_value::{Attr, Item};

/// The attributes of an item, by name. They are only borrowed.
pub trait AttrView {
    ghost use Rattle.std.specs.Prelude.{ℕ, List, Option};
    ghost use Rattle.alt_value.specs.Tree.{Tree};

    ghost attribute: { Self → List ℕ → Option Tree };

    /// The value of that name, None exactly where no attribute has the name.
    fn attr(&self, name: &str) -> Option<&Attr>
        ensures value { option_map (λ a. tree_of a.now) result ≡ attribute self.now name.now };
}

impl AttrView for Item {
    ghost use Rattle.alt_value.specs.Item.{at_name};

    ghost attribute = { λ item name. at_name name item };

    fn attr(&self, name: &str) -> Option<&Attr> {
        self.get(name)
    }
}
