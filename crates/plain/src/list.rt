use std::ops::DerefSlice;
use std::slice;

// A list of at most N items, which lie in the value itself. What is pushed onto a full list, or put into it, is lost.
#[derive(Clone, Copy)]
pub struct List<T: Copy, const N: usize> {
    items: [T; N],
    len: usize,
}

impl<T: Copy, const N: usize> List<T, N> {
    pub fn empty(blank: T) -> List<T, N> {
        List {
            items: [blank; N],
            len: 0,
        }
    }

    // So many times the same item, or N times where that is less.
    pub(crate) fn filled(item: T, len: usize) -> List<T, N> {
        List {
            items: [item; N],
            len: len.min(N),
        }
    }

    pub fn len(&self) -> usize {
        self.len
    }

    pub fn get(&self, place: usize) -> Option<T> {
        self.as_slice().get(place).copied()
    }

    pub fn as_slice(&self) -> &[T] {
        self.items.get(..self.len).unwrap_or_default()
    }

    pub(crate) fn get_mut(&mut self, place: usize) -> Option<&mut T> {
        if place >= self.len {
            return None;
        }
        self.items.get_mut(place)
    }

    pub(crate) fn push(&mut self, item: T) {
        self.insert(self.len, item);
    }

    // Those at the place and behind it move on by one.
    pub(crate) fn insert(&mut self, place: usize, item: T) {
        if place <= self.len && self.len < N {
            let (items, _) = self.items.split_at_mut(self.len + 1);
            items[self.len] = item;
            items[place..].rotate_right(1);
            self.len += 1;
        }
    }

    pub(crate) fn take_first(&mut self) -> Option<T> {
        let items = self.items.get_mut(..self.len)?;
        let first = *items.first()?;
        items.rotate_left(1);
        self.len -= 1;
        Some(first)
    }
}

impl<T: Copy, const N: usize> DerefSlice for List<T, N> {
    type Elem = T;

    fn deref(&self) -> &[T] {
        self.as_slice()
    }
}

impl<'a, T: Copy, const N: usize> IntoIterator for &'a List<T, N> {
    type Item = &'a T;

    type IntoIter = slice::Iter<'a, T>;

    fn into_iter(self) -> slice::Iter<'a, T> {
        self.as_slice().iter()
    }
}
