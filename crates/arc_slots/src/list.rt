//! The windows of a table under their numbers.
ghost use Rattle.std.specs.Prelude.{◌≡◌, ◌<◌, ◌++◌, ◌∷◌, ℕ, [], true, Some, None, length, is_some};
ghost use Rattle.std.specs.Prelude.{IfSome, MatchOption, slice_get};
ghost use Rattle.std.specs.Option.{option_flatten};
ghost use Rattle.std.specs.Vec.{vec_capacity};
ghost use Rattle.arc_slots.specs.Index.{IsIndexed, windows_of};
ghost use Rattle.arc_slots.specs.Slots.{with_slot};

use arc_kinds::place::set_slot;
use std::alloc::Allocator;

/// Makes room for an item more, and answers whether there is some. It takes memory only where there
/// are too few places.
#[inline(always)]
fn room_for_one<X, A: Allocator>(items: &mut Vec<X, A>) -> bool
    ensures items { items.new.items ≡ items.old.items }
    ensures room { result ≡ true → length items.new.items < vec_capacity items.new }
{
    if items.len() < items.capacity() {
        return true;
    }
    items.reserve(1).is_ok()
}

/// Windows under their numbers. A number keeps eight bytes for good, which say in which place its
/// window is. A place says whose window it has. It serves another number when the window has gone.
pub struct Slots<X, A: Allocator> {
    /// Of each number, the place of its window.
    pub index: Vec<usize, A>,
    /// Of each place, the number that has or had it last.
    pub numbers: Vec<usize, A>,
    /// The windows at their places, `None` where one has gone.
    pub places: Vec<Option<X>, A>,
    /// Places whose windows have gone. Each is tested before it is used again.
    pub free: Vec<usize, A>,
}

impl<X, A: Allocator> Slots<X, A> {
    /// The place of the window with this number, if there is one.
    #[inline(always)]
    pub fn place_of(&self, number: usize) -> Option<usize>
        requires { IsIndexed self.now.index.items self.now.numbers.items self.now.places.items }
        ensures told { IfSome result (λ p. slice_get self.now.index.items number ≡ Some p) }
        ensures whose { IfSome result (λ p. slice_get self.now.numbers.items p ≡ Some number) }
        ensures within { IfSome result (λ p. p < length self.now.places.items) }
        ensures there { IfSome result (λ p.
            is_some (option_flatten (slice_get self.now.places.items p)) ≡ true) }
        ensures none { result ≡ None → option_flatten (slice_get (windows_of self.now.index.items
            self.now.numbers.items self.now.places.items) number) ≡ None }
    {
        if number >= self.index.len() {
            return None;
        }
        let place = self.index[number];
        if place >= self.numbers.len() {
            return None;
        }
        if self.numbers[place] != number {
            return None;
        }
        if self.places[place].is_none() {
            return None;
        }
        Some(place)
    }

    /// The window with this number, if there is one.
    pub fn get(&self, number: usize) -> Option<&X>
        requires { IsIndexed self.now.index.items self.now.numbers.items self.now.places.items }
        ensures { MatchOption result (option_flatten (slice_get (windows_of self.now.index.items
            self.now.numbers.items self.now.places.items) number) ≡ None) (λ window.
            slice_get (windows_of self.now.index.items self.now.numbers.items
            self.now.places.items) number ≡ Some (Some window.now)) }
    {
        let Some(place) = self.place_of(number) else {
            return None;
        };
        self.places[place].as_ref()
    }

    /// Makes room for a window more, where it is wanted, and answers whether there is some. Where
    /// it isn't wanted the answer is `false`. Memory is taken for the window, and for a later entry
    /// of its place in the list of places that may be used again.
    #[inline(always)]
    pub fn room_if(&mut self, wanted: bool) -> bool
        ensures index { self.new.index.items ≡ self.old.index.items }
        ensures numbers { self.new.numbers.items ≡ self.old.numbers.items }
        ensures places { self.new.places.items ≡ self.old.places.items }
        ensures room { result ≡ true → length self.new.index.items < vec_capacity self.new.index }
        ensures more { result ≡ true
            → length self.new.numbers.items < vec_capacity self.new.numbers }
        ensures further { result ≡ true
            → length self.new.places.items < vec_capacity self.new.places }
    {
        if !wanted {
            return false;
        }
        if !room_for_one(&mut self.index) {
            return false;
        }
        if !room_for_one(&mut self.numbers) {
            return false;
        }
        if !room_for_one(&mut self.places) {
            return false;
        }
        let all = self.places.len().saturating_add(1);
        if all <= self.free.capacity() {
            return true;
        }
        let listed = all.saturating_sub(self.free.len());
        self.free.reserve(listed).is_ok()
    }

    /// A place without a window, if one is listed.
    fn free_place(&mut self) -> Option<usize>
        ensures index { self.new.index ≡ self.old.index }
        ensures numbers { self.new.numbers ≡ self.old.numbers }
        ensures places { self.new.places ≡ self.old.places }
        ensures free { IfSome result (λ p. slice_get self.old.places.items p ≡ Some None) }
    {
        let Some(place) = self.free.pop() else {
            return None;
        };
        if place >= self.places.len() {
            return None;
        }
        if self.places[place].is_some() {
            return None;
        }
        Some(place)
    }

    /// Puts a place into the list of those that may be used again, where that is wanted and its
    /// window has gone.
    #[inline(always)]
    pub fn settle(&mut self, wanted: bool, place: usize)
        ensures index { self.new.index.items ≡ self.old.index.items }
        ensures numbers { self.new.numbers.items ≡ self.old.numbers.items }
        ensures places { self.new.places.items ≡ self.old.places.items }
        ensures listed { wanted ≡ true → slice_get self.old.places.items place ≡ Some None
            → length self.old.free.items < vec_capacity self.old.free
            → self.new.free.items ≡ self.old.free.items ++ place ∷ [] }
    {
        if !wanted || place >= self.places.len() {
            return;
        }
        if self.places[place].is_some() {
            return;
        }
        if self.free.len() < self.free.capacity() {
            self.free.push_reserved(place);
        }
    }

    /// Puts a window under the next number, at a place that has none.
    fn put_at(&mut self, place: usize, window: X)
        requires empty { slice_get self.old.places.items place ≡ Some None }
        requires indexed { IsIndexed self.old.index.items self.old.numbers.items
            self.old.places.items }
        requires room { length self.old.index.items < vec_capacity self.old.index }
        ensures windows { windows_of self.new.index.items self.new.numbers.items
            self.new.places.items ≡ windows_of self.old.index.items self.old.numbers.items
            self.old.places.items ++ Some window ∷ [] }
        ensures indexed { IsIndexed self.new.index.items self.new.numbers.items
            self.new.places.items }
    {
        let number = self.index.len();
        self.index.push_reserved(place);
        self.numbers[place] = number;
        set_slot(&mut self.places[place], Some(window));
    }

    /// Puts a window under the next number, at a place more.
    fn put_behind(&mut self, window: X)
        requires indexed { IsIndexed self.old.index.items self.old.numbers.items
            self.old.places.items }
        requires room { length self.old.index.items < vec_capacity self.old.index }
        requires more { length self.old.numbers.items < vec_capacity self.old.numbers }
        requires further { length self.old.places.items < vec_capacity self.old.places }
        ensures windows { windows_of self.new.index.items self.new.numbers.items
            self.new.places.items ≡ windows_of self.old.index.items self.old.numbers.items
            self.old.places.items ++ Some window ∷ [] }
        ensures indexed { IsIndexed self.new.index.items self.new.numbers.items
            self.new.places.items }
    {
        let number = self.index.len();
        self.index.push_reserved(self.places.len());
        self.numbers.push_reserved(number);
        self.places.push_reserved(Some(window));
    }

    /// Puts a window, if there is one, under the next number.
    #[inline(always)]
    pub fn push_made(&mut self, made: Option<X>)
        requires indexed { IsIndexed self.old.index.items self.old.numbers.items
            self.old.places.items }
        requires room { is_some made ≡ true
            → length self.old.index.items < vec_capacity self.old.index }
        requires more { is_some made ≡ true
            → length self.old.numbers.items < vec_capacity self.old.numbers }
        requires further { is_some made ≡ true
            → length self.old.places.items < vec_capacity self.old.places }
        ensures windows { windows_of self.new.index.items self.new.numbers.items
            self.new.places.items ≡ with_slot (windows_of self.old.index.items
            self.old.numbers.items self.old.places.items) made }
        ensures indexed { IsIndexed self.new.index.items self.new.numbers.items
            self.new.places.items }
    {
        let Some(window) = made else {
            return;
        };
        if let Some(place) = self.free_place() {
            self.put_at(place, window);
            return;
        }
        self.put_behind(window);
    }
}

/// Gives back the memory of places whose windows have all gone.
pub fn end_slots<X, A: Allocator>(mut slots: Vec<Option<X>, A>)
    requires { (i : ℕ) → option_flatten (slice_get slots.items i) ≡ None }
{
    while let Some(slot) = slots.pop() {
        let None = slot else { unreachable!() };
    }
    slots.destroy_empty();
}
