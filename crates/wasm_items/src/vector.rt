ghost use Rattle.std.specs.Prelude.{◌≡◌};
ghost use Rattle.wasm_items.specs.Residuals.{rest_behind};
ghost use Rattle.wasm_items.specs.Vectors.{rest_of_vector, more_at};

use crate::item::Item;
use crate::leb::Leb32;
use crate::memory::append;
use crate::one_byte::ByteState;
use crate::progress::Progress;
use std::alloc::Global;
use wasm_ast::List;
use wasm_reading::DecodeError;

/// A vector in the middle: its entries so far, and what is read next (WebAssembly Core Specification 1.0,
/// section 5.1.3).
#[derive(Drop)]
pub struct VectorState<T: Item> {
    alloc: Global,
    before: List<T::Value>,
    next: Next<T>,
}

/// A vector of `u32`, as the labels of a table of branches, in the middle.
pub type Numbers = VectorState<Leb32>;

/// A vector of bytes that stand for themselves, in the middle.
pub type ByteVector = VectorState<ByteState>;

/// What is read next of a vector.
#[derive(Drop)]
enum Next<T> {
    /// The count of its entries.
    Count(Leb32),
    /// An entry, and so many stand behind it.
    Entry(T, u32),
}

impl<T: Item> Item for VectorState<T> {
    ghost use Rattle.wasm_reading.specs.ReadValues.{vector_at};
    ghost use Rattle.wasm_items.specs.Vectors.{rest_of_vector, wants_vector};

    type Value = List<T::Value>;

    ghost reader = { vector_at T.reader };

    ghost rest_of = { rest_of_vector T.reader T.rest_of };

    ghost wants = { wants_vector T.reader T.rest_of T.wants };

    fn start(alloc: Global) -> VectorState<T> {
        VectorState {
            alloc,
            before: List::new(alloc),
            next: Next::Count(Leb32::unsigned()),
        }
    }

    fn push(
        self,
        byte: u8,
        at: u64,
    ) -> Result<Progress<VectorState<T>, List<T::Value>>, DecodeError> {
        let VectorState {
            alloc,
            mut before,
            next,
        } = self;
        match next {
            Next::Count(number) => match number.push(byte, at)? {
                Progress::More(number) => Ok(Progress::More(VectorState {
                    alloc,
                    before,
                    next: Next::Count(number),
                })),
                Progress::Done(count) => Ok(VectorState::entries(alloc, before, count)),
            },
            Next::Entry(entry, behind) => match entry.push(byte, at)? {
                Progress::More(entry) => Ok(Progress::More(VectorState {
                    alloc,
                    before,
                    next: Next::Entry(entry, behind),
                })),
                Progress::Done(value) => {
                    append(&mut before, value)?;
                    Ok(VectorState::entries(alloc, before, behind))
                }
            },
        }
    }
}

impl<T: Item> VectorState<T> {
    /// So many entries behind those that were read, without their count: done where there are none.
    pub fn entries(
        alloc: Global,
        before: List<T::Value>,
        count: u32,
    ) -> Progress<VectorState<T>, List<T::Value>>
        ensures { rest_behind (rest_of_vector T.reader T.rest_of) result ≡ more_at T.reader before count }
    {
        if count == 0 {
            return Progress::Done(before);
        }
        Progress::More(VectorState {
            alloc,
            before,
            next: Next::Entry(T::start(alloc), count - 1),
        })
    }
}
