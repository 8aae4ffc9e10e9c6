// The calendar: days, months and years as numbers.
#![tactic(auto)]

pub mod dates;
mod day;
pub mod days;
pub mod hours;
pub mod laws;
mod month;
mod year;

#[cfg(test)]
mod tests {
    use super::dates::*;
    use super::days::*;
    use super::hours::*;

    #[test]
    fn days_months_and_years(rt: HostRuntime) {
        assert_eq!(rt; month_of(456), Some(15));
        assert_eq!(rt; month_of(457), Some(16));
        assert_eq!(rt; first_day_of_month(26), Some(763));
        assert_eq!(rt; year_of(23_376), Some(2082));
        assert_eq!(rt; year_of(23_377), None);
        assert_eq!(rt; year_of(0), None);
    }

    #[test]
    fn hours_when_clocks_change(rt: HostRuntime) {
        assert_eq!(rt; hours_of(90), Some(23));
        assert_eq!(rt; hours_of(91), Some(24));
        assert_eq!(rt; hours_of(300), Some(25));
    }

    #[test]
    fn dates_as_text(rt: HostRuntime) {
        assert_eq!(rt; read_date(b"20200229"), Ok(425));
        assert_eq!(rt; read_date(b"20200230"), Err(DateFault::NoSuchDate));
        assert_eq!(rt; read_date(b"20821231"), Ok(23_376));
        assert_eq!(rt; read_date(b"20830101"), Err(DateFault::NoSuchDate));
        assert_eq!(rt; read_date(b"2020022x"), Err(DateFault::NotDigits));
        assert_eq!(rt; read_month(b"202102"), Ok(26));
        assert_eq!(rt; write_date(425), Some(*b"20200229"));
    }

    #[test]
    fn years_as_text(rt: HostRuntime) {
        assert_eq!(rt; read_year(b"2018"), Err(DateFault::NoSuchDate));
        assert_eq!(rt; read_year(b"2019"), Ok(2019));
        assert_eq!(rt; read_year(b"2082"), Ok(2082));
        assert_eq!(rt; read_year(b"2083"), Err(DateFault::NoSuchDate));
        assert_eq!(rt; read_year(b"02019"), Err(DateFault::NotDigits));
        assert_eq!(rt; read_year(b"201"), Err(DateFault::NotDigits));
        assert_eq!(rt; read_year(b"20x9"), Err(DateFault::NotDigits));
        assert_eq!(rt; write_year(2082), Some(*b"2082"));
        assert_eq!(rt; write_year(2083), None);
    }
}
