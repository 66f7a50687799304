// What stands under names, in order by name.
ghost use Rattle.std.specs.Prelude.{◌≡◌, [], ◌∷◌, ◌++◌, Some, not, IfOk, IfErr, OnOk, OnErr, option_map, if◌then◌else◌};
ghost use Rattle.fml_types.specs.Named.{IsAbove, AreRising, IsPlace, found, has_name, place, with_name};

use sequences::Text;
use std::alloc::{AllocError, Global};
use std::marker::Model;

/// Names that rise by their bytes, so that no two are the same, each with what stands under it.
/// Contracts see it as the list of the pairs.
#[derive(Drop)]
pub struct ByName<T> {
    pairs: Vec<(Text, T)>,
}

impl<T> Model for ByName<T> {
    ghost use Rattle.std.specs.Prelude.{List, ℕ};
    ghost use Rattle.std.specs.Coded.{coded×, coded_ℕ, coded_list};
    ghost use Rattle.fml_types.specs.Named.{AreRising};

    ghost Value = { List (List ℕ × T) };

    ghost coded = { coded_list (coded× (coded_list coded_ℕ) T.code) };

    ghost view = { λ a. a.pairs.items };

    ghost invariant = { λ a. AreRising a.pairs.items };
}

impl<T> ByName<T> {
    /// No name at all. It takes no memory.
    pub fn new(alloc: Global) -> ByName<T>
        ensures { result ≡ [] }
    {
        ByName {
            pairs: Vec::new(alloc),
        }
    }

    /// Takes over names that rise, with no memory.
    pub fn from_vec(pairs: Vec<(Text, T)>) -> ByName<T>
        requires { AreRising pairs.items }
        ensures { result ≡ pairs.items }
    {
        ByName { pairs }
    }

    /// Gives the names back, in order, with no memory.
    pub fn into_vec(self) -> Vec<(Text, T)>
        ensures { result.items ≡ self }
    {
        self.pairs
    }

    /// The names and what stands under them, in order. It takes no memory.
    pub fn as_slice(&self) -> &[(Text, T)]
        ensures pairs { result.now ≡ self.now }
        ensures rising { AreRising self.now }
    {
        self.pairs.as_slice()
    }

    /// The place of the name, where it is there, by a binary search. It takes no memory.
    pub fn place(&self, name: &str) -> Option<usize>
        ensures { result ≡ place name.now self.now }
    {
        match place_of(self.as_slice(), name) {
            Ok(place) => Some(place),
            Err(_) => None,
        }
    }

    /// What stands under the name, by a binary search. It takes no memory.
    pub fn get(&self, name: &str) -> Option<&T>
        ensures { option_map (λ value. value.now) result ≡ found name.now self.now }
    {
        let pairs = self.as_slice();
        match place_of(pairs, name) {
            Ok(place) => Some(&pairs[place].1),
            Err(_) => None,
        }
    }
}

impl<T: Drop> ByName<T> {
    /// Puts a name at the end, which is above each that is there. Want of memory leaves the names
    /// as they were.
    pub fn push(&mut self, name: Text, value: T) -> Result<(), AllocError>
        requires { IsAbove name self.old }
        ensures ok { OnOk result (self.new ≡ self.old ++ (name, value) ∷ []) }
        ensures err { OnErr result (self.new ≡ self.old) }
    {
        self.pairs.push((name, value))?;
        Ok(())
    }

    /// Puts a name at its place, unless it is there, and says whether it did. Want of memory leaves
    /// the names as they were.
    pub fn insert(&mut self, name: Text, value: T) -> Result<bool, AllocError>
        ensures ok { OnOk result (self.new ≡ (if has_name name self.old then self.old else with_name (name, value) self.old)) }
        ensures is_new { IfOk result (λ b. b ≡ not (has_name name self.old)) }
        ensures err { OnErr result (self.new ≡ self.old) }
    {
        match place_of(self.as_slice(), name.as_str()) {
            Ok(_) => Ok(false),
            Err(place) => {
                self.pairs.insert(place, (name, value))?;
                Ok(true)
            }
        }
    }
}

/// Where the name stands, or else where it belongs.
fn place_of<T>(pairs: &[(Text, T)], name: &str) -> Result<usize, usize>
    requires { AreRising pairs.now }
    ensures there { IfOk result (λ i. place name.now pairs.now ≡ Some i) }
    ensures absent { IfErr result (λ i. IsPlace name.now pairs.now i) }
{
    pairs.binary_search_by(|pair| pair.0.as_str().cmp(name))
}
