// What is known of a new state's lists.
ghost use Rattle.sequences.specs.ListParts.{IsPart};
ghost use Rattle.state_codec.specs.RecipeLists.{HasLists};

use enrol_states::State;
use sequences::ListPart;

/// Which of a new state's lists are those of the state before.
#[derive(Clone, Copy)]
pub enum RecipeLists {
    /// The live and the pending recipes.
    AsBefore,
    /// The live and the pending recipes, and the opted-out slugs and the rows but for these parts.
    AllBut { opted_out: ListPart, rows: ListPart },
    /// The live recipes. Others may be pending.
    LiveAsBefore,
    /// Perhaps none.
    MayDiffer,
}

impl RecipeLists {
    /// The part of the opted-out slugs that may differ.
    pub(crate) fn opted_out_part(self, old: &State, new: &State) -> ListPart
        requires { HasLists self old.now new.now }
        ensures { IsPart result old.now.opted_out new.now.opted_out }
    {
        match self {
            RecipeLists::AllBut { opted_out, .. } => opted_out,
            RecipeLists::AsBefore | RecipeLists::LiveAsBefore | RecipeLists::MayDiffer => {
                ListPart::whole(old.opted_out.len(), new.opted_out.len())
            }
        }
    }

    /// The part of the rows that may differ.
    pub fn row_part(self, old: &State, new: &State) -> ListPart
        requires { HasLists self old.now new.now }
        ensures { IsPart result old.now.rows new.now.rows }
    {
        match self {
            RecipeLists::AllBut { rows, .. } => rows,
            RecipeLists::AsBefore | RecipeLists::LiveAsBefore | RecipeLists::MayDiffer => {
                ListPart::whole(old.rows.len(), new.rows.len())
            }
        }
    }
}
