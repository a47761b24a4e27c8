//! Laws of readings and readers: functions with a contract and no code.

ghost use Rattle.std.specs.Prelude.{◌≡◌, true, false};
ghost use Rattle.gimli_read.specs.Leb128.{Leb128Laws};
ghost use Rattle.gimli_read.specs.Alike.{AnswersAlike};
ghost use Rattle.gimli_read.specs.FaultLaws.{ReadingsAreNotRefused};
ghost use Rattle.gimli_read.specs.ValueSize.{LeavesItsSize};
ghost use Rattle.gimli_read.specs.ValueLaws.{ValueLaws};

use crate::endian_bytes::EndianBytes;
use crate::endian_slice::EndianSlice;
use crate::reader::Reader;

/// A LEB128 number is read from its text, whatever follows, and from nothing else.
pub fn leb128_laws()
    ensures law { Leb128Laws }
{}

/// A fixed number, the value of a form and an attribute are read from their texts, whatever
/// follows, and from nothing else.
pub fn value_laws()
    ensures law { ValueLaws }
{}

/// To read an attribute whose form alone says its size is to pass over as many bytes: where they
/// are missing, both are `UnexpectedEof`.
pub fn size_laws()
    ensures law { LeavesItsSize }
{}

/// Readers of equal sections answer alike.
///
/// Each call of a reader answers a reading of its section, exactly or unless memory is refused. Of
/// two such answers to one reading of equal sections the values, what is left and the faults are
/// equal, unless one of them is `OutOfMemory`. `X` and `Y` are what the two calls answer, and `Z`
/// is what both are seen as.
pub fn alike_laws<X, Y, Z>()
    ensures law { AnswersAlike X Y Z }
{}

/// Parts of borrowed bytes and second readers of them take no memory; those of `Bytes` are counted.
pub fn sharing_laws()
    ensures law { (⟦<EndianSlice<'static> as Reader>⟧.shares ≡ false)
        × (⟦<EndianBytes as Reader>⟧.shares ≡ true) }
{}

/// No reading gives `OutOfMemory`: whatever the bytes are, it gives a value or another fault. So an
/// answer `OutOfMemory` of a call is never what its bytes give.
pub fn fault_laws()
    ensures law { ReadingsAreNotRefused }
{}
