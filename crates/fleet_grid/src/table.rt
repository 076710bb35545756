//! Tables by number, and lists by keys.

ghost use Rattle.std.specs.Prelude.{◌≡◌, ◌≢◌, ◌≤◌, ◌<◌, ℕ, OnOk, OnErr, IfOk, length, get_or, ◌+◌, Bool, [], filter, Vec};
ghost use Rattle.fleet_grid.specs.declared.table.TheConstants.{PAGE};
ghost use Rattle.fleet_grid.specs.Table.{IsSet, AreSame, items_at, value_in};
ghost use Rattle.std.specs.Fn.{FnReturnsAt, FnOnceTakesAtMut, FnOnceReturnsAtMut};
ghost use Rattle.std.specs.declared.alloc.Global.{Global};
ghost use Rattle.fleet_grid.specs.declared.table.Key.{Key};
ghost use Rattle.fleet_grid.specs.Lists.{list_at, HaveSameLists, IsChangedBy, key_of_cell, key_of_number, number_at, list_of, HaveOwnLists, IsNumbered};

use fleet_model::{Cell, OutOfMemory};
use std::alloc::{AllocError, Global};
use std::marker::Model;

/// How many values stand in a page.
pub(crate) const PAGE: usize = 1024;

/// A value for each number. It takes memory for the pages in which a value was set, and 24 bytes for each page up to
/// the last of those.
#[derive(Drop)]
pub struct Table<V: Copy> {
    alloc: Global,
    /// The value of each number that was not set.
    blank: V,
    /// Past the end of a page, and of the list of pages, all values are blank.
    pages: Vec<Vec<V>>,
}

impl<V: Copy> Table<V> {
    /// The table in which each number has this value. Takes no memory.
    pub fn new(alloc: Global, blank: V) -> Table<V>
        ensures { (number : ℕ) → value_in result number ≡ blank }
    {
        Table {
            alloc,
            blank,
            pages: Vec::new(alloc),
        }
    }

    /// The value of the number.
    #[inline(always)]
    pub fn get(&self, number: usize) -> V
        ensures { result ≡ value_in self.now number }
    {
        let Some(page) = self.pages.get(number / PAGE) else {
            return self.blank;
        };
        match page.get(number % PAGE) {
            Some(value) => *value,
            None => self.blank,
        }
    }

    /// Sets the value of the number, and answers the one before. It fails only if memory is refused, and then no value
    /// changes.
    #[inline(always)]
    pub fn replace(&mut self, number: usize, value: V) -> Result<V, AllocError>
        ensures before { IfOk result (λ before. before ≡ value_in self.old number) }
        ensures set { OnOk result (IsSet self.old self.new number value) }
        ensures kept { OnErr result (AreSame self.old self.new) }
    {
        let page = number / PAGE;
        extend_to(self.alloc, &mut self.pages, page)?;
        let before = replace_in(&mut self.pages[page], number % PAGE, value, self.blank)?;
        Ok(before)
    }

    /// Sets the value of the number. It fails only if memory is refused, and then no value changes.
    #[inline(always)]
    pub fn set(&mut self, number: usize, value: V) -> Result<(), AllocError>
        ensures set { OnOk result (IsSet self.old self.new number value) }
        ensures kept { OnErr result (AreSame self.old self.new) }
    {
        self.replace(number, value)?;
        Ok(())
    }
}

/// Adds empty pages until the list has this one. Those that it has stay as they are, even if memory is refused.
#[inline(always)]
pub fn extend_to<V: Copy>(
    alloc: Global,
    pages: &mut Vec<Vec<V>>,
    page: usize,
) -> Result<(), AllocError>
    ensures room { OnOk result (page < length pages.new.items) }
    ensures same { (k : ℕ) → items_at pages.new.items k ≡ items_at pages.old.items k }
{
    while pages.len() <= page {
        pages.push(Vec::new(alloc))?;
    }
    Ok(())
}

/// Writes the value at a place of the page, and answers the one before.
#[inline(always)]
fn replace_in<V: Copy>(page: &mut Vec<V>, place: usize, value: V, blank: V) -> Result<V, AllocError>
    requires { place < PAGE }
    ensures before { IfOk result (λ before. before ≡ get_or page.old.items place blank) }
    ensures here { OnOk result (get_or page.new.items place blank ≡ value) }
    ensures others { OnOk result ((k : ℕ) → k ≢ place
        → get_or page.new.items k blank ≡ get_or page.old.items k blank) }
    ensures kept { OnErr result ((k : ℕ)
        → get_or page.new.items k blank ≡ get_or page.old.items k blank) }
{
    let is_short = page.len() <= place;
    if is_short {
        fill(page, blank)?;
    }
    let before = page[place];
    page[place] = value;
    Ok(before)
}

/// Makes the page whole: the values that it lacks are blank.
#[inline(never)]
fn fill<V: Copy>(page: &mut Vec<V>, blank: V) -> Result<(), AllocError>
    ensures whole { OnOk result (PAGE ≤ length page.new.items) }
    ensures same { (place : ℕ)
        → get_or page.new.items place blank ≡ get_or page.old.items place blank }
{
    page.reserve_exact(PAGE - page.len().min(PAGE))?;
    page.resize(page.len().max(PAGE), blank)
}

// Lists by keys.

/// A key of a list: a place in a row.
#[derive(Clone, Copy)]
pub struct Key {
    pub row: usize,
    pub place: u16,
}

impl Key {
    /// The key of a cell: its place in the row of the map.
    #[inline(always)]
    pub fn of_cell(cell: Cell) -> Key
        ensures { result ≡ key_of_cell cell }
    {
        Key {
            row: usize::from(cell.y),
            place: cell.x,
        }
    }

    /// The key of a number, by pages.
    #[inline(always)]
    pub fn of_number(number: usize) -> Key
        ensures { result ≡ key_of_number number }
    {
        Key {
            row: number / PAGE,
            place: (number % PAGE) as u16,
        }
    }
}

/// A list for each key. Only keys whose list was changed have one of their own. It takes memory for these, for the rows
/// up to the last of them, and in each row for the places up to the last of them.
#[derive(Drop)]
pub struct Lists<V: Copy> {
    alloc: Global,
    /// For each key the number of its list, counted from 1; 0 if it has none of its own.
    numbers: Vec<Vec<u32>>,
    lists: Vec<Vec<V>>,
}

impl<V: Copy> Model for Lists<V> {
    ghost use Rattle.std.specs.Prelude.{List};

    ghost Value = { List (List (List V)) };

    ghost use Rattle.fleet_grid.specs.Lists.{lists_by_key, HaveOwnLists};

    ghost view = { λ t. lists_by_key t.numbers.items t.lists.items };

    ghost invariant = { λ t. HaveOwnLists t.numbers.items t.lists.items };
}

impl<V: Copy> Lists<V> {
    /// All lists are empty. Takes no memory.
    pub fn new(alloc: Global) -> Lists<V>
        ensures { (key : Key) → list_at result key ≡ [] }
    {
        Lists {
            alloc,
            numbers: Vec::new(alloc),
            lists: Vec::new(alloc),
        }
    }

    /// The list of the key.
    #[inline(always)]
    pub fn list(&self, key: Key) -> &[V]
        ensures { result.now ≡ list_at self.now key }
    {
        let number = number_at(self.numbers.as_slice(), key);
        let has_none = number == 0;
        if has_none {
            return &[];
        }
        self.lists[number as usize - 1].as_slice()
    }

    /// Lends the list of the key to `change`, and answers what that answers. The other lists stay.
    ///
    /// Errors: `OutOfMemory`, if the key gets no list of its own; then nothing is called, and no list changes.
    pub fn change<R, F: FnOnce(&mut Vec<V>) -> R>(
        &mut self,
        key: Key,
        change: F,
    ) -> Result<R, OutOfMemory>
        requires { (list : Vec V Global) → list.items ≡ list_at self.old key
            → FnOnceTakesAtMut F.FnOnce change list }
        ensures ok { IfOk result (λ answer. IsChangedBy
            (λ before after. FnOnceReturnsAtMut F.FnOnce change before answer after)
            self.old self.new key) }
        ensures err { OnErr result (HaveSameLists self.old self.new) }
    {
        let place = own(self.alloc, &mut self.numbers, &mut self.lists, key)?;
        Ok(change(&mut self.lists[place]))
    }

    /// Keeps of each list only what `keep` answers `true` for.
    pub fn retain<F: Fn(&V) -> bool>(&mut self, keep: F)
        requires { F.IsAlwaysCallable keep }
        ensures { (test : V → Bool)
            → ((x : V) (b : Bool) → FnReturnsAt F.Fn keep x b → b ≡ test x)
            → (key : Key) → list_at self.new key ≡ filter test (list_at self.old key) }
    {
        retain_in(&mut self.lists, keep);
    }
}

/// Keeps of each of the lists only what `keep` answers `true` for.
fn retain_in<V: Copy, F: Fn(&V) -> bool>(lists: &mut Vec<Vec<V>>, keep: F)
    requires { F.IsAlwaysCallable keep }
    ensures kept { (test : V → Bool)
        → ((x : V) (b : Bool) → FnReturnsAt F.Fn keep x b → b ≡ test x)
        → (k : ℕ) → items_at lists.new.items k ≡ filter test (items_at lists.old.items k) }
    ensures len { length lists.new.items ≡ length lists.old.items }
{
    for list in lists.iter_mut() {
        list.retain(&keep);
    }
}

/// The number of the key's list; 0 if it has none of its own.
#[inline(always)]
#[tactic(auto, unfolding(crate::specs::Lists::number_at))]
fn number_at(numbers: &[Vec<u32>], key: Key) -> u32
    ensures { result ≡ number_at numbers.now key }
{
    let Some(row) = numbers.get(key.row) else {
        return 0;
    };
    match row.get(usize::from(key.place)) {
        Some(number) => *number,
        None => 0,
    }
}

/// The place of the key's own list, which is added if there is none. The list of each key stays the same.
fn own<V: Copy>(
    alloc: Global,
    numbers: &mut Vec<Vec<u32>>,
    lists: &mut Vec<Vec<V>>,
    key: Key,
) -> Result<usize, OutOfMemory>
    requires { HaveOwnLists numbers.old.items lists.old.items }
    ensures own { HaveOwnLists numbers.new.items lists.new.items }
    ensures within { IfOk result (λ k. k < length lists.new.items) }
    ensures place { IfOk result (λ k. number_at numbers.new.items key ≡ k + 1) }
    ensures same { (k : Key) → list_of numbers.new.items lists.new.items k
        ≡ list_of numbers.old.items lists.old.items k }
{
    let number = number_at(numbers.as_slice(), key);
    let has_one = number > 0;
    if has_one {
        return Ok(number as usize - 1);
    }
    add(alloc, numbers, lists, key)
}

/// Adds a list for the key, which has none of its own, and answers its place. It fails if memory is refused, or if
/// there are 4,294,967,295 lists.
fn add<V: Copy>(
    alloc: Global,
    numbers: &mut Vec<Vec<u32>>,
    lists: &mut Vec<Vec<V>>,
    key: Key,
) -> Result<usize, OutOfMemory>
    requires lists { HaveOwnLists numbers.old.items lists.old.items }
    requires none { number_at numbers.old.items key ≡ 0 }
    ensures own { HaveOwnLists numbers.new.items lists.new.items }
    ensures within { IfOk result (λ k. k < length lists.new.items) }
    ensures place { IfOk result (λ k. number_at numbers.new.items key ≡ k + 1) }
    ensures same { (k : Key) → list_of numbers.new.items lists.new.items k
        ≡ list_of numbers.old.items lists.old.items k }
{
    let place = lists.len();
    let is_full = place >= u32::MAX as usize;
    if is_full {
        return Err(OutOfMemory);
    }
    lists.push(Vec::new(alloc))?;
    set_number(alloc, numbers, key, place as u32 + 1)?;
    Ok(place)
}

/// Gives the key the number. A refusal changes no number.
fn set_number(
    alloc: Global,
    numbers: &mut Vec<Vec<u32>>,
    key: Key,
    number: u32,
) -> Result<(), OutOfMemory>
    ensures ok { OnOk result (IsNumbered numbers.old.items numbers.new.items key number) }
    ensures err { OnErr result ((k : Key)
        → number_at numbers.new.items k ≡ number_at numbers.old.items k) }
{
    extend_to(alloc, numbers, key.row)?;
    set_in(&mut numbers[key.row], key.place as usize, number, 0)
}

/// Sets the value at a place of the row, past whose end all values are blank. A refusal changes nothing.
pub fn set_in<V: Copy>(
    row: &mut Vec<V>,
    place: usize,
    value: V,
    blank: V,
) -> Result<(), OutOfMemory>
    requires { place < 4294967295 }
    ensures here { OnOk result (get_or row.new.items place blank ≡ value) }
    ensures others { (k : ℕ) → k ≢ place
        → get_or row.new.items k blank ≡ get_or row.old.items k blank }
    ensures err { OnErr result (row.new.items ≡ row.old.items) }
{
    if row.len() <= place {
        row.resize(place + 1, blank)?;
    }
    row[place] = value;
    Ok(())
}
