//! What bytes are written to and lines are read from, by what each call gives.

use std::io::ErrorKind;

/// What bytes are written to.
pub trait Sink: Drop {
    ghost use Rattle.std.specs.Prelude.{◌≤◌, IfOk, List, Option, length, ℕ};
    ghost use Rattle.std.specs.Io.KnownBytes.{Keeps, WriteAppends};
    ghost use Rattle.addr2line_bin.specs.Calls.{Flushed, SinkCall, Wrote};

    /// A call leads from one state to another, and gives this.
    ghost gives: { Self → SinkCall → Self → Type 0 };

    /// The bytes that it holds, where they are known.
    ghost contents: { Self → Option (List ℕ) };

    /// Writes a beginning of the bytes; how many of them.
    fn write(&mut self, bytes: &[u8]) -> Result<usize, ErrorKind>
        ensures gives { gives self.old (Wrote bytes.now result) self.new }
        ensures bound { IfOk result (λ n. n ≤ length bytes.now) }
        ensures after { WriteAppends (contents self.old) (contents self.new) result bytes.now };

    /// Hands on what was written.
    fn flush(&mut self) -> Result<(), ErrorKind>
        ensures gives { gives self.old (Flushed result) self.new }
        ensures kept { Keeps (contents self.old) (contents self.new) };
}

/// What lines are read from.
pub trait LineSource: Drop {
    ghost use Rattle.std.specs.Prelude.{◌≡◌, ◌+◌, ◌++◌, IfOk, IfSome, OnOk};
    ghost use Rattle.std.specs.Prelude.{List, Option, vec_len, ℕ};
    ghost use Rattle.std.specs.Io.{StartsWith, StopsAt, appended_bytes};
    ghost use Rattle.std.specs.Io.BufRead.{DropsThrough, take_through};
    ghost use Rattle.std.specs.Io.KnownBytes.{Consumes, IsAtEnd};
    ghost use Rattle.addr2line_bin.specs.Calls.{ReadCall, ReadTo};

    /// A call leads from one state to another, and gives this.
    ghost gives: { Self → ReadCall → Self → Type 0 };

    /// The bytes that are left, where they are known.
    ghost remaining: { Self → Option (List ℕ) };

    /// Appends the bytes up to the first of this value, and that one, or all that are left; how
    /// many. After a fault it has appended some of them.
    fn read_to(&mut self, byte: u8, line: &mut Vec<u8>) -> Result<usize, ErrorKind>
        ensures gives { gives self.old
            (ReadTo byte (appended_bytes line.old.items line.new.items) result) self.new }
        ensures kept { StartsWith line.new.items line.old.items }
        ensures whole { IfOk result (λ n. vec_len line.new ≡ vec_len line.old + n) }
        ensures within { StopsAt (appended_bytes line.old.items line.new.items) byte }
        ensures found { OnOk result (IfSome (remaining self.old)
            (λ xs. line.new.items ≡ line.old.items ++ take_through byte xs)) }
        ensures left { OnOk result (DropsThrough (remaining self.old) (remaining self.new) byte) }
        ensures none { IfOk result (λ n. n ≡ 0 → IsAtEnd (remaining self.old)) }
        ensures after { Consumes (remaining self.old) (remaining self.new)
            (appended_bytes line.old.items line.new.items) };
}
