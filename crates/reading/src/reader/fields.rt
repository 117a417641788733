ghost use Rattle.std.specs.Prelude.{◌≡◌, ◌+◌, ◌-◌, ◌^◌, ◌<◌, ◌≤◌, length, IfOk, OnOk};
ghost use Rattle.std.specs.Int.{from_bool};
ghost use Rattle.bits.specs.Bits.{bits_of};
ghost use Rattle.syntax.specs.Parse.{field};
ghost use Rattle.reading.specs.Storing.{Takes, TakesAs, ended};

use crate::reader::BlockReader;
use bits::reading::field;
use syntax::fault::ReadFault;

impl BlockReader<'_, '_, '_> {
    // The next `width` bits as a number.
    pub fn take(&mut self, width: u8) -> Result<u32, ReadFault>
        requires { width ≤ 32 }
        ensures takes { Takes (field width) self.old self.new result }
        ensures bound { IfOk result (λ v. v < 2 ^ width) }
        ensures step { OnOk result (self.new.at ≡ self.old.at + width) }
    {
        let Some(value) = field(self.bytes, self.at, width) else {
            return Err(ReadFault::Ends { bit: self.at });
        };
        self.at += usize::from(width);
        Ok(value)
    }

    // So in a byte, where they are at most eight.
    pub fn byte(&mut self, width: u8) -> Result<u8, ReadFault>
        requires { width ≤ 8 }
        ensures takes { Takes (field width) self.old self.new result }
        ensures bound { IfOk result (λ v. v < 2 ^ width) }
    {
        Ok(self.take(width)? as u8)
    }

    // A count of at least one, which is written as one less.
    pub fn count(&mut self, width: u8) -> Result<u8, ReadFault>
        requires { width ≤ 7 }
        ensures takes { TakesAs (λ n. n - 1) (field width) self.old self.new result }
        ensures least { IfOk result (λ n. 1 ≤ n) }
        ensures most { IfOk result (λ n. n ≤ 2 ^ width) }
    {
        Ok(self.byte(width)? + 1)
    }

    // The number of a flow.
    pub fn flow(&mut self) -> Result<u8, ReadFault>
        ensures { Takes (field 5) self.old self.new result }
    {
        self.byte(5)
    }

    // The next bit as a truth.
    pub fn bit(&mut self) -> Result<bool, ReadFault>
        ensures { TakesAs from_bool (field 1) self.old self.new result }
    {
        Ok(self.take(1)? == 1)
    }

    // Nothing but filling may follow the last field: fewer than eight bits, all zero.
    pub fn filling(&mut self) -> Result<(), ReadFault>
        ensures ended { result ≡ ended (bits_of self.old.bytes.now) self.old.at }
        ensures store { self.new.store.now ≡ self.old.store.now }
        ensures same_store { self.new.store.ghost_name ≡ self.old.store.ghost_name }
    {
        let at = self.at;
        let rest = self.bytes.len() * 8 - at;
        if rest < 8 && self.take(rest as u8)? == 0 {
            Ok(())
        } else {
            Err(ReadFault::Filling { bit: at })
        }
    }
}
