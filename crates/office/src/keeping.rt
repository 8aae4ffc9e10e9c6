// The registers of an office.
ghost use Rattle.std.specs.Prelude.{◌≡◌};
ghost use Rattle.std.specs.Option.{option_map};
ghost use Rattle.meters.specs.Register.{readings};
ghost use Rattle.office.specs.Registers.{by_id, no_registers, open_register, read_register, register_of};

use super::registers::Registers;
use answers::Answer;
use meters::Register;

impl<const IDS: usize> Registers<IDS> {
    // No register.
    pub(crate) fn none() -> Registers<IDS>
        ensures { by_id result ≡ no_registers IDS }
    {
        Registers { list: [None; IDS] }
    }

    // Keeps a new register in the place of the one before, which stays where the new one is refused.
    pub(crate) fn begin(&mut self, id: u8, year: u16) -> Answer
        ensures { (result, by_id self.new) ≡ open_register id year (by_id self.old) }
    {
        if usize::from(id) >= self.list.len() {
            return Answer::Bad;
        }
        match Register::new(year) {
            Err(refusal) => Answer::Refused(refusal),
            Ok(register) => {
                self.list[usize::from(id)] = Some(register);
                Answer::Taken
            }
        }
    }

    // Reads an hour into a register, where there is one.
    pub(crate) fn read_hour(&mut self, id: u8, day: u16, hour: u8, kwh: u32) -> Answer
        ensures { (result, by_id self.new) ≡ read_register id day hour kwh (by_id self.old) }
    {
        let Some(register) = self.kept(id) else {
            return Answer::Bad;
        };
        // Read as a copy: in place, what the list holds after it was not proved
        let mut read = register;
        let answer = Answer::from(read.read_hour(day, hour, kwh));
        self.list[usize::from(id)] = Some(read);
        answer
    }

    // The register of an ID, if there is one: a copy, since an issue changes the office that lends it.
    pub(crate) fn kept(&self, id: u8) -> Option<Register>
        ensures { option_map readings result ≡ register_of id (by_id self.now) }
    {
        *self.list.get(usize::from(id))?
    }
}
