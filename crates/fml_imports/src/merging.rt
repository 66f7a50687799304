// Names in order, to which others are added.
ghost use Rattle.std.specs.Prelude.{◌≡◌, ◌<◌, ◌≤◌, ◌||◌, ℕ, List, ◌++◌, true, false, length, take, drop, IfOk, OnOk};
ghost use Rattle.std.specs.Cmp.Lexicographic.{slice_cmp};
ghost use Rattle.std.specs.Ordering.{nat_cmp, is_lt};
ghost use Rattle.std.specs.declared.cmp.Ordering.TheVariants.{Less};
ghost use Rattle.fml_types.specs.Named.{IsAbove, AreRising, has_name};
ghost use Rattle.fml_imports.specs.Merging.{with_new, count_below, is_first, IsFirstAbove};
ghost use Rattle.fml_imports.specs.Outcome.{Gives, Leaves, each};

use crate::fault::{JoinFault, JoinRefusal};
use fml_types::ByName;
use sequences::Text;
use std::alloc::{AllocError, Global};
use std::collections::VecDeque;
use std::mem;

/// Adds names to those that are there, each at its place, unless it is met among them or among the
/// others. Each is looked for from the place of the name before on.
pub(crate) fn merge<T: Drop, U>(
    alloc: Global,
    names: &mut ByName<T>,
    added: ByName<T>,
    others: &ByName<U>,
) -> Result<(), JoinFault>
    ensures { Leaves names.new result (each (with_new others.now) names.old added) }
{
    let there = taken(alloc, names);
    *names = merged(alloc, there, added, others)?;
    Ok(())
}

/// What stands under the names, which are taken out.
pub(crate) fn taken<T: Drop>(alloc: Global, names: &mut ByName<T>) -> ByName<T>
    ensures { result ≡ names.old }
{
    mem::replace(names, ByName::new(alloc))
}

#[tactic(auto, using(crate::proofs::Adding::added_turn, crate::proofs::Adding::added_fails, crate::proofs::Adding::first_next, crate::proofs::Adding::first_named, crate::proofs::Adding::rest_rises, crate::proofs::Adding::drop_rises, crate::proofs::Adding::is_first_other))]
fn merged<T: Drop, U>(
    alloc: Global,
    there: ByName<T>,
    added: ByName<T>,
    others: &ByName<U>,
) -> Result<ByName<T>, JoinFault>
    ensures { Gives result (each (with_new others.now) there added) }
{
    let (mut done, mut left) = parted(alloc, there, &added)?;
    let mut others = others.as_slice();
    for (name, value) in risen(added) {
        others = from_name(others, &name);
        add(&mut done, &mut left, name, value, others)?;
    }
    let names = joined(done, left)?;
    Ok(names)
}

/// The pairs, in order.
pub(crate) fn risen<T>(names: ByName<T>) -> Vec<(Text, T)>
    ensures pairs { result.items ≡ names }
    ensures rising { AreRising result.items }
{
    names.into_vec()
}

/// Those that are there, as two parts: all are in the first where they are below the names that are
/// added, else all are in the second.
fn parted<T: Drop>(
    alloc: Global,
    there: ByName<T>,
    added: &ByName<T>,
) -> Result<(Vec<(Text, T)>, VecDeque<(Text, T)>), AllocError>
    ensures pairs { IfOk result (λ parts. parts.0.items ++ parts.1.items ≡ there) }
    ensures above { IfOk result (λ parts. IsFirstAbove parts.0.items added.now) }
    ensures rising { IfOk result (λ parts. AreRising (parts.0.items ++ parts.1.items)) }
{
    let is_above = is_first_above(&there, added);
    let there = risen(there);
    if is_above {
        return Ok((there, VecDeque::new(alloc)));
    }
    let done = Vec::with_capacity(alloc, there.len())?;
    Ok((done, VecDeque::from_vec(there)))
}

fn is_first_above<T>(there: &ByName<T>, added: &ByName<T>) -> bool
    ensures { result ≡ true → IsFirstAbove there.now added.now }
{
    match added.as_slice().first() {
        Some(first) => is_above(there, &first.0),
        None => true,
    }
}

/// Whether the name is above all that are there.
fn is_above<T>(there: &ByName<T>, name: &Text) -> bool
    ensures { result ≡ true → IsAbove name.now there.now }
{
    match there.as_slice().last() {
        Some(last) => is_lower(&last.0, name),
        None => true,
    }
}

fn is_lower(name: &Text, other: &Text) -> bool
    ensures { result ≡ is_lt (slice_cmp nat_cmp name.now other.now) }
{
    name.as_str() < other.as_str()
}

/// Adds a name that is above those that are done, where the others start with it if they have it.
fn add<T: Drop, U>(
    done: &mut Vec<(Text, T)>,
    left: &mut VecDeque<(Text, T)>,
    name: Text,
    value: T,
    others: &[(Text, U)],
) -> Result<(), JoinFault>
    requires rising { AreRising (done.old.items ++ left.old.items) }
    requires above { IsAbove name done.old.items }
    requires first { is_first name others.now ≡ has_name name others.now }
    ensures leaves { Leaves (done.new.items ++ left.new.items) result (with_new others.now (done.old.items ++ left.old.items) (name, value)) }
    ensures rising { OnOk result (AreRising (done.new.items ++ left.new.items)) }
    ensures above { OnOk result ((next : List ℕ) → slice_cmp nat_cmp name next ≡ Less → IsAbove next done.new.items) }
{
    let count = count_left(left, &name);
    move_front(left, count, done)?;
    if is_met(left, others, &name) {
        return Err(JoinFault::Refused(JoinRefusal::DuplicateName(name)));
    }
    done.push((name, value))?;
    Ok(())
}

/// Whether those that are left or the others start with the name.
fn is_met<T, U>(left: &VecDeque<(Text, T)>, others: &[(Text, U)], name: &Text) -> bool
    requires { is_first name.now others.now ≡ has_name name.now others.now }
    ensures { result ≡ (is_first name.now left.now.items || has_name name.now others.now) }
{
    is_first(left, name) || starts_with(others, name)
}

fn starts_with<T>(names: &[(Text, T)], name: &Text) -> bool
    ensures { result ≡ is_first name.now names.now }
{
    match names {
        [pair, ..] => pair.0 == *name,
        [] => false,
    }
}

fn is_first<T>(left: &VecDeque<(Text, T)>, name: &Text) -> bool
    ensures { result ≡ is_first name.now left.now.items }
{
    match left.front() {
        Some(pair) => pair.0 == *name,
        None => false,
    }
}

#[tactic(auto, using(crate::proofs::Names::placed))]
pub(crate) fn has_name<T>(names: &ByName<T>, name: &Text) -> bool
    ensures { result ≡ has_name name.now names.now }
{
    names.place(name.as_str()).is_some()
}

/// The names from the first on that isn't below this one.
fn from_name<'a, T>(names: &'a [(Text, T)], name: &Text) -> &'a [(Text, T)]
    requires { AreRising names.now }
    ensures { result.now ≡ drop (count_below name.now names.now) names.now }
{
    let count = count_below(names, name);
    &names[count..]
}

/// How many of the names that are left are below this one.
#[tactic(auto, using(crate::proofs::Adding::front_rises, crate::proofs::Adding::back_rises, crate::proofs::Adding::count_all, crate::proofs::Adding::count_front))]
fn count_left<T>(left: &VecDeque<(Text, T)>, name: &Text) -> usize
    requires { AreRising left.now.items }
    ensures { result ≡ count_below name.now left.now.items }
{
    let (front, back) = left.as_slices();
    let count = count_below(front, name);
    if count < front.len() {
        return count;
    }
    let more = count_below(back, name);
    count + more
}

/// How many of the names are below this one. Steps that double in length find it, and then steps that
/// halve.
fn count_below<T>(names: &[(Text, T)], name: &Text) -> usize
    requires { AreRising names.now }
    ensures count { result ≡ count_below name.now names.now }
    ensures within { result ≤ length names.now }
{
    let len = names.len();
    let mut least = 0;
    let mut most = 0;
    while is_below(names, most, name) {
        least = most + 1;
        most = least + least.min(len - least);
    }
    while least < most {
        let middle = least + (most - least) / 2;
        if is_below(names, middle, name) {
            least = middle + 1;
        } else {
            most = middle;
        }
    }
    least
}

/// Whether there is a pair at the place, and its name is below this one.
fn is_below<T>(names: &[(Text, T)], place: usize, name: &Text) -> bool
    requires { AreRising names.now }
    ensures within { result ≡ true → place < length names.now }
    ensures below { result ≡ true → place < count_below name.now names.now }
    ensures past { result ≡ false → count_below name.now names.now ≤ place }
{
    match names.get(place) {
        Some(pair) => is_lower(&pair.0, name),
        None => false,
    }
}

/// Moves so many pairs from the front of those that are left to the end of the others.
fn move_front<T: Drop>(
    left: &mut VecDeque<(Text, T)>,
    count: usize,
    done: &mut Vec<(Text, T)>,
) -> Result<(), AllocError>
    ensures done { OnOk result (done.new.items ≡ done.old.items ++ take count left.old.items) }
    ensures left { OnOk result (left.new.items ≡ drop count left.old.items) }
{
    let mut rest = count;
    while rest > 0 {
        move_first(left, done)?;
        rest -= 1;
    }
    Ok(())
}

#[tactic(auto, using(crate::proofs::Adding::one_left, crate::proofs::Adding::none_left))]
fn move_first<T: Drop>(
    left: &mut VecDeque<(Text, T)>,
    done: &mut Vec<(Text, T)>,
) -> Result<(), AllocError>
    ensures done { OnOk result (done.new.items ≡ done.old.items ++ take 1 left.old.items) }
    ensures left { OnOk result (left.new.items ≡ drop 1 left.old.items) }
{
    match left.pop_front() {
        Some(pair) => {
            done.push(pair)?;
            Ok(())
        }
        None => Ok(()),
    }
}

/// All pairs, in order by name.
fn joined<T: Drop>(done: Vec<(Text, T)>, left: VecDeque<(Text, T)>) -> Result<ByName<T>, AllocError>
    requires { AreRising (done.items ++ left.items) }
    ensures { IfOk result (λ names. names ≡ done.items ++ left.items) }
{
    let mut pairs = done;
    let mut rest = left.into_vec();
    pairs.append(&mut rest)?;
    Ok(ByName::from_vec(pairs))
}
