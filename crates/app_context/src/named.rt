// Texts under names.
ghost use Rattle.std.specs.Prelude.{◌≡◌, [], ◌∷◌, ◌++◌, option_map, OnOk, OnErr, IfOk};

use sequences::Text;
use std::alloc::{AllocError, Global};
use std::marker::Model;

/// Names and their texts. The names rise by their bytes. Contracts see it as the list of the names
/// and the texts. A clone has the same names and texts.
#[derive(Drop)]
pub struct NamedTexts {
    pairs: Vec<(Text, Text)>,
}

impl Model for NamedTexts {
    ghost use Rattle.std.specs.Prelude.{List, ℕ};
    ghost use Rattle.std.specs.Coded.{coded×, coded_ℕ, coded_list};

    ghost Value = { List (List ℕ × List ℕ) };

    ghost coded = { coded_list (coded× (coded_list coded_ℕ) (coded_list coded_ℕ)) };

    ghost use Rattle.app_context.specs.Named.{AreInOrder};

    ghost view = { λ a. a.pairs.items };

    ghost invariant = { λ a. AreInOrder a.pairs.items };
}

impl NamedTexts {
    ghost use Rattle.enrol_states.specs.Order.{AreBelow};
    ghost use Rattle.app_context.specs.Named.{AreInOrder, names_of, text_with};

    /// No name at all. It takes no memory.
    pub fn new(alloc: Global) -> NamedTexts
        ensures { result ≡ [] }
    {
        NamedTexts {
            pairs: Vec::new(alloc),
        }
    }

    pub(crate) fn allocator(&self) -> Global {
        *self.pairs.allocator()
    }

    /// Puts a name at the end, which is above each that is there. Want of memory leaves the names
    /// as they were.
    pub fn push(&mut self, name: Text, text: Text) -> Result<(), AllocError>
        requires { AreBelow name (names_of self.old) }
        ensures ok { OnOk result (self.new ≡ self.old ++ (name, text) ∷ []) }
        ensures err { OnErr result (self.new ≡ self.old) }
    {
        self.pairs.push((name, text))?;
        Ok(())
    }

    /// The text of the name, by a binary search. It takes no memory.
    pub fn get(&self, name: &str) -> Option<&Text>
        ensures { option_map (λ t. t.now) result ≡ text_with name.now self.now }
    {
        let pairs = self.as_slice();
        match pairs.binary_search_by(|pair| pair.0.as_str().cmp(name)) {
            Ok(place) => Some(&pairs[place].1),
            Err(_) => None,
        }
    }

    /// The names and their texts, in order. It takes no memory.
    pub fn as_slice(&self) -> &[(Text, Text)]
        ensures pairs { result.now ≡ self.now }
        ensures in_order { AreInOrder self.now }
    {
        self.pairs.as_slice()
    }
}

impl Clone for NamedTexts {
    ghost is_clone = { λ a b. b ≡ a };

    fn clone(&self) -> Result<NamedTexts, AllocError> {
        Ok(NamedTexts {
            pairs: copy_of_pairs(self.allocator(), self.as_slice())?,
        })
    }
}

fn copy_of_pairs(alloc: Global, pairs: &[(Text, Text)]) -> Result<Vec<(Text, Text)>, AllocError>
    ensures { IfOk result (λ ps. ps.items ≡ pairs.now) }
{
    let mut copies = Vec::new(alloc);
    for (name, text) in pairs {
        copies.push((name.clone()?, text.clone()?))?;
    }
    Ok(copies)
}
