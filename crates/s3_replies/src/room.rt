//! Where replies are printed.

ghost use Rattle.std.specs.Prelude.{◌≡◌, ℕ, ◌+◌, ◌≤◌, List, ◌++◌, length};
ghost use Rattle.std.specs.Vec.{vec_len, vec_capacity};
ghost use Rattle.arrayvec.specs.ArrayVec.{array_vec_len};

use arrayvec::ArrayVec;

/// Memory that is there already, in which texts are written one behind another.
pub trait Room {
    /// The texts.
    ghost written: { Self → List ℕ };

    /// How many bytes they are.
    ghost size: { Self → ℕ };

    /// How many bytes there is memory for.
    ghost capacity: { Self → ℕ };

    /// Appends the text, for which the caller has left room.
    fn write(&mut self, text: &[u8])
        requires room { size self.old + length text.now ≤ capacity self.old }
        ensures written { written self.new ≡ written self.old ++ text.now }
        ensures size { size self.new ≡ size self.old + length text.now }
        ensures capacity { capacity self.old ≤ capacity self.new };
}

impl Room for Vec<u8> {
    ghost written = { λ room. room.items };

    ghost size = { λ room. vec_len room };

    ghost capacity = { λ room. vec_capacity room };

    fn write(&mut self, text: &[u8]) {
        let Ok(()) = self.extend_from_slice(text) else {
            // The caller knows that there is room for the text.
            unreachable!()
        };
    }
}

impl<const SIZE: usize> Room for ArrayVec<u8, SIZE> {
    ghost written = { λ room. room.items };

    ghost size = { λ room. array_vec_len room };

    ghost capacity = { λ _. SIZE };

    fn write(&mut self, text: &[u8]) {
        let _fits = self.try_extend_from_slice(text);
    }
}
