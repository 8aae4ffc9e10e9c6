use super::held::Register;
use crate::meter::Meter;
use amounts::Refusal;
use std::test::Fail;

// Reads the first hours of a day, each with the same kWh.
fn read_hours(register: &mut Register, day: u16, hours: u8, kwh: u32) -> Result<(), Refusal> {
    for hour in 0..hours {
        register.read_hour(day, hour, kwh)?;
    }
    Ok(())
}

// What refuses a reading, if anything does.
fn refusal(register: &mut Register, day: u16, hour: u8, kwh: u32) -> Option<Refusal> {
    register.read_hour(day, hour, kwh).err()
}

#[test]
fn a_day_of_23_hours(rt: HostRuntime) -> Result<(), Fail> {
    let mut register = Register::new(2019)?;
    read_hours(&mut register, 90, 22, 10)?;
    assert_eq!(rt; register.kwh(90, 90), None);
    assert_eq!(rt; refusal(&mut register, 90, 22, 5), None);
    assert_eq!(rt; refusal(&mut register, 90, 23, 1), Some(Refusal::BadHour));
    assert_eq!(rt; register.kwh(90, 90), Some(225));
    Ok(())
}

#[test]
fn leap_day_and_last_day(rt: HostRuntime) -> Result<(), Fail> {
    let mut register = Register::new(2020)?;
    read_hours(&mut register, 424, 24, 1)?;
    read_hours(&mut register, 425, 24, 2)?;
    read_hours(&mut register, 731, 24, 3)?;
    assert_eq!(rt; register.kwh(424, 425), Some(72));
    assert_eq!(rt; register.kwh(424, 426), None);
    assert_eq!(rt; register.kwh(731, 731), Some(72));
    assert_eq!(rt; register.kwh(731, 732), None);
    assert_eq!(rt; register.kwh(425, 424), None);
    Ok(())
}

#[test]
fn days_of_the_year(rt: HostRuntime) -> Result<(), Fail> {
    let mut register = Register::new(2019)?;
    assert_eq!(rt; refusal(&mut register, 0, 0, 1), Some(Refusal::BadDay));
    assert_eq!(rt; refusal(&mut register, 366, 99, 1), Some(Refusal::BadDay));
    assert_eq!(rt; refusal(&mut register, 365, 23, 1), None);
    assert_eq!(rt; refusal(&mut register, 365, 24, 1), Some(Refusal::BadHour));
    assert_eq!(rt; register.kwh(0, 65_535), None);
    Ok(())
}
