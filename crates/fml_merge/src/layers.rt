// Layers of members laid one after the other over names that have values.
ghost use Rattle.std.specs.Prelude.{◌≡◌, ◌<◌, ◌++◌, length, map, IfOk, OnOk};
ghost use Rattle.std.specs.Option.{ForSome, option_to_list};
ghost use Rattle.fml_types.specs.Named.{AreRising};
ghost use Rattle.fml_value.specs.TypedOf.{typed_of, entry_of};
ghost use Rattle.fml_merge.specs.Laying.{value_of, base_pairs, types_among, types_under, members_over, member_over, layers_over, run_over, trees_over, replaced_over, all_merged, run_merged};
ghost use Rattle.fml_merge.specs.Layers.{piece_of, AreClimbing};
ghost use Rattle.fml_merge.specs.Merging.{merged_in, left_in, upper, unnamed};

use crate::laying::Layering;
use crate::merging::Merge;
use crate::parts::{Base, MemberTypes, entries_in, gains_names, insert_entry, type_of, types_in};
use crate::runs::counted_trees;
use crate::sorting::{Piece, pieces_by_name, run_length, takes_any};
use fml_types::FieldType;
use fml_value::{Entries, Value, takes};
use json_tree::{Members, Tree};
use sequences::Text;
use std::alloc::AllocError;

impl<'a> Layering<'a> {
    /// The layers of members laid over a map or an object.
    #[cycle(laying)]
    pub(crate) fn lay_over_base(
        self,
        of: &FieldType,
        base: Base,
        layers: &[&Members],
    ) -> Result<Entries, AllocError>
        requires { 0 < length layers.now }
        ensures { IfOk result (λ es. es ≡ layers_over self.entry (types_under self.entry of.now) (base_pairs self.entry of.now base) layers.now) }
    {
        let member_types = types_in(self.types, of);
        match base {
            Base::Made(value) => {
                self.lay_layers(member_types, entries_in(self.alloc, value), layers)
            }
            Base::Zero(levels) => {
                let entries = self.lay_over_zero_fields(of, levels, layers[0])?;
                self.lay_layers(member_types, entries, &layers[1..])
            }
        }
    }

    /// The members laid over the entries of their names, or over zero where there is none. Each costs
    /// a search for its name; only a map that gains two names or more is gone through.
    #[cycle(laying)]
    pub(crate) fn lay_members(
        self,
        member_types: MemberTypes,
        base: Entries,
        members: &Members,
    ) -> Result<Entries, AllocError>
        ensures { IfOk result (λ es. es ≡ members_over self.entry (types_among self.entry member_types.entry) base members.now) }
    {
        if gains_names(self.types, member_types, &base, members) {
            let layers = [members];
            self.merge_layers(member_types, base, &layers)
        } else {
            self.lay_in_place(member_types, base, members)
        }
    }

    /// The layers of members laid over the entries, one after the other. Each costs its own members;
    /// the entries are gone through once, unless there is but one layer.
    #[cycle(laying)]
    pub(crate) fn lay_layers(
        self,
        member_types: MemberTypes,
        base: Entries,
        layers: &[&Members],
    ) -> Result<Entries, AllocError>
        ensures { IfOk result (λ es. es ≡ layers_over self.entry (types_among self.entry member_types.entry) base layers.now) }
    {
        if layers.is_empty() {
            return Ok(base);
        }
        if layers.len() == 1 {
            return self.lay_members(member_types, base, layers[0]);
        }
        self.merge_layers(member_types, base, layers)
    }

    // Each member laid over the entry of its name, which stays in its place.
    #[cycle(laying)]
    fn lay_in_place(
        self,
        member_types: MemberTypes,
        base: Entries,
        members: &Members,
    ) -> Result<Entries, AllocError>
        ensures { IfOk result (λ es. es ≡ members_over self.entry (types_among self.entry member_types.entry) base members.now) }
    {
        let pairs = members.as_slice();
        let mut entries = base;
        for (name, tree) in pairs {
            self.lay_named(member_types, &mut entries, name, tree)?;
        }
        Ok(entries)
    }

    // A member laid over the entry of its name, or over zero where there is none, where its name has a
    // type that takes its tree.
    #[cycle(laying)]
    fn lay_named(
        self,
        member_types: MemberTypes,
        entries: &mut Entries,
        name: &Text,
        tree: &Tree,
    ) -> Result<(), AllocError>
        ensures { OnOk result (entries.new ≡ member_over self.entry member_types.entry entries.old name.now tree.now) }
    {
        let Some(member_type) = type_of(self.types, member_types, name.as_str()) else {
            return Ok(());
        };
        if !takes(self.types, member_type, tree) {
            return Ok(());
        }
        match entries.replace(name.as_str(), Value::Absent) {
            Some(base) => {
                let value = self.lay(member_type, Base::Made(base), tree)?;
                entries.replace(name.as_str(), value);
                Ok(())
            }
            None => {
                let value = self.lay_over_zero(member_type, tree)?;
                insert_entry(entries, name, value)
            }
        }
    }

    // The layers' members in order by name, and the entries gone through side by side, so that each
    // entry moves at most once.
    #[cycle(laying)]
    fn merge_layers(
        self,
        member_types: MemberTypes,
        base: Entries,
        layers: &[&Members],
    ) -> Result<Entries, AllocError>
        ensures { IfOk result (λ es. es ≡ layers_over self.entry (types_among self.entry member_types.entry) base layers.now) }
    {
        let pieces = pieces_by_name(self.alloc, layers)?;
        let mut merge = Merge::new(self.alloc, base);
        self.merge_pieces(member_types, &mut merge, pieces.as_slice())?;
        merge.finish()
    }

    // The pieces laid over the entries that are left, name by name.
    #[cycle(laying)]
    fn merge_pieces(
        self,
        member_types: MemberTypes,
        merge: &mut Merge,
        pieces: &[Piece],
    ) -> Result<(), AllocError>
        requires climbing { AreClimbing (map piece_of pieces.now) }
        requires rising { AreRising (left_in merge.old) }
        ensures { OnOk result (merged_in merge.new ++ left_in merge.new ≡ all_merged self.entry member_types.entry merge.old (map piece_of pieces.now)) }
    {
        let mut start = 0;
        while start < pieces.len() {
            let rest = &pieces[start..];
            let name = rest[0].name;
            let count = run_length(rest, name.as_str());
            self.merge_run(member_types, merge, name, &rest[..count])?;
            start += count;
        }
        Ok(())
    }

    // The pieces of one name laid over the entry of that name.
    #[cycle(laying)]
    fn merge_run(
        self,
        member_types: MemberTypes,
        merge: &mut Merge,
        name: &Text,
        pieces: &[Piece],
    ) -> Result<(), AllocError>
        ensures merged { OnOk result (merged_in merge.new ≡ run_merged self.entry member_types.entry merge.old name.now pieces.now) }
        ensures left { OnOk result (left_in merge.new ≡ unnamed name.now (upper name.now (left_in merge.old))) }
    {
        let there = merge.take(name.as_str())?;
        let entry = self.lay_run(member_types, name, there, pieces)?;
        merge.push(entry)
    }

    // The trees of the pieces of one name laid over the entry of that name, where the name has a type
    // that takes one.
    #[cycle(laying)]
    fn lay_run(
        self,
        member_types: MemberTypes,
        name: &Text,
        there: Option<(Text, Value)>,
        pieces: &[Piece],
    ) -> Result<Option<(Text, Value)>, AllocError>
        requires { ForSome there (λ entry. entry.0 ≡ name.now) }
        ensures { IfOk result (λ entry. map entry_of (option_to_list entry) ≡ run_over self.entry member_types.entry name.now pieces.now (map entry_of (option_to_list there))) }
    {
        let Some(of) = type_of(self.types, member_types, name.as_str()) else {
            return Ok(there);
        };
        if !takes_any(self.types, of, pieces) {
            return Ok(there);
        }
        match there {
            Some((name, base)) => {
                let value = self.lay_trees(of, Base::Made(base), pieces)?;
                Ok(Some((name, value)))
            }
            None => {
                let value = self.lay_trees(of, Base::Zero(self.levels), pieces)?;
                Ok(Some((name.clone()?, value)))
            }
        }
    }

    // The trees laid over a value of the type, one after the other: each that the type takes. Only
    // what no later tree replaces is laid.
    #[cycle(laying)]
    fn lay_trees(self, of: &FieldType, base: Base, pieces: &[Piece]) -> Result<Value, AllocError>
        ensures { IfOk result (λ v. typed_of v ≡ trees_over self.entry of.now (value_of self.entry of.now base) pieces.now) }
    {
        let counted = counted_trees(self.alloc, self.types, of, pieces)?;
        let replacing = counted.replacing;
        self.lay_counted(of, base, replacing, counted.objects.as_slice())
    }

    // The objects laid over a value of the type, or over the tree that replaces it.
    #[cycle(laying)]
    fn lay_counted(
        self,
        of: &FieldType,
        base: Base,
        replacing: Option<&Tree>,
        objects: &[&Members],
    ) -> Result<Value, AllocError>
        ensures { IfOk result (λ v. typed_of v ≡ replaced_over self.entry of.now (value_of self.entry of.now base) replacing.entry objects.now) }
    {
        match replacing {
            None => self.lay_objects(of, base, objects),
            Some(tree) => {
                let value = self.lay_over_zero(of, tree)?;
                self.lay_objects(of, Base::Made(value), objects)
            }
        }
    }
}
