// A part of a byte string.
#![tactic(auto)]

ghost use Rattle.std.specs.Prelude.{◌≡◌, ◌+◌, ◌≤◌, ◌^◌, ◌<◌, length};
ghost use Rattle.part.specs.Part.{part};

// Where the part begins, and how long it is.
#[repr(C)]
#[derive(Clone, Copy)]
pub struct Part {
    pub offset: usize,
    pub length: usize,
}

impl Part {
    // No bytes, at 0.
    pub const NONE: Part = Part {
        offset: 0,
        length: 0,
    };

    // Where the part ends.
    pub fn end(self) -> usize
        requires { self.offset + self.length < 2 ^ 64 }
        ensures { result ≡ self.offset + self.length }
    {
        self.offset + self.length
    }

    // The bytes of the part: that very part of `s`.
    pub fn of(self, s: &[u8]) -> &[u8]
        requires { self.offset + self.length ≤ length s.now }
        ensures result_value { result.now ≡ part s.now self.offset self.length }
        ensures ref_ptr_value { result.ref_ptr ≡ (s.entry.ref_ptr.0, s.entry.ref_ptr.1 + self.offset) }
    {
        let from = self.offset;
        let end = from + self.length;
        &s[from..end]
    }
}
