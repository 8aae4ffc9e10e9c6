use super::current::Current;
use super::held::Board;
use super::year_end::YearEnd;
use amounts::Refusal;
use std::test::Fail;

#[test]
fn a_new_board_is_silent(rt: HostRuntime) {
    let board = Board::new();
    assert_eq!(rt; board.quota_on(1), None);
    assert_eq!(rt; board.quota_on(23_376), None);
    assert_eq!(rt; board.price_of(1), None);
}

#[test]
fn a_quota_holds_until_the_next(rt: HostRuntime) -> Result<(), Fail> {
    let mut board = Board::new();
    board.tell_quota(100, 449_792)?;
    board.tell_quota(466, 450_000)?;
    assert_eq!(rt; board.quota_on(99), None);
    assert_eq!(rt; board.quota_on(100), Some(449_792));
    assert_eq!(rt; board.quota_on(465), Some(449_792));
    assert_eq!(rt; board.quota_on(466), Some(450_000));
    assert_eq!(rt; board.quota_on(23_376), Some(450_000));
    Ok(())
}

#[test]
fn quotas_are_told_in_the_order_of_their_days(rt: HostRuntime) -> Result<(), Fail> {
    let mut board = Board::new();
    board.tell_quota(100, 1)?;
    assert_eq!(rt; board.tell_quota(100, 2), Err(Refusal::BadFigure));
    assert_eq!(rt; board.tell_quota(99, 2), Err(Refusal::BadFigure));
    assert_eq!(rt; board.quota_on(100), Some(1));
    board.tell_quota(101, 0)?;
    assert_eq!(rt; board.quota_on(101), Some(0));
    Ok(())
}

#[test]
fn quotas_within_their_limits(rt: HostRuntime) -> Result<(), Fail> {
    let mut board = Board::new();
    assert_eq!(rt; board.tell_quota(0, 1_000_000), Err(Refusal::BadDay));
    assert_eq!(rt; board.tell_quota(23_377, 1), Err(Refusal::BadDay));
    assert_eq!(rt; board.tell_quota(1, 1_000_000), Err(Refusal::BadFigure));
    board.tell_quota(1, 999_999)?;
    assert_eq!(rt; board.quota_on(1), Some(999_999));
    Ok(())
}

#[test]
fn room_for_sixteen_quotas(rt: HostRuntime) -> Result<(), Fail> {
    let mut board = Board::new();
    for day in 1..17 {
        board.tell_quota(day, 5)?;
    }
    assert_eq!(rt; board.tell_quota(0, 6), Err(Refusal::BadDay));
    assert_eq!(rt; board.tell_quota(17, 1_000_000), Err(Refusal::NoRoom));
    assert_eq!(rt; board.quota_on(17), Some(5));
    board.forget(2020)?;
    board.tell_quota(17, 6)?;
    assert_eq!(rt; board.quota_on(15), None);
    assert_eq!(rt; board.quota_on(16), Some(5));
    assert_eq!(rt; board.quota_on(17), Some(6));
    Ok(())
}

#[test]
fn one_price_for_a_month(rt: HostRuntime) -> Result<(), Fail> {
    let mut board = Board::new();
    board.tell_price(7, 1)?;
    board.tell_price(6, 2_000_000)?;
    assert_eq!(rt; board.tell_price(7, 2), Err(Refusal::BadFigure));
    assert_eq!(rt; board.price_of(7), Some(1));
    assert_eq!(rt; board.price_of(6), Some(2_000_000));
    assert_eq!(rt; board.price_of(8), None);
    Ok(())
}

#[test]
fn prices_within_their_limits(rt: HostRuntime) -> Result<(), Fail> {
    let mut board = Board::new();
    assert_eq!(rt; board.tell_price(0, 0), Err(Refusal::BadDay));
    assert_eq!(rt; board.tell_price(769, 1), Err(Refusal::BadDay));
    assert_eq!(rt; board.tell_price(768, 0), Err(Refusal::BadFigure));
    assert_eq!(rt; board.tell_price(768, 2_000_001), Err(Refusal::BadFigure));
    board.tell_price(768, 2_000_000)?;
    assert_eq!(rt; board.price_of(768), Some(2_000_000));
    Ok(())
}

#[test]
fn room_for_forty_eight_prices(rt: HostRuntime) -> Result<(), Fail> {
    let mut board = Board::new();
    for month in 1..49 {
        board.tell_price(month, 3)?;
    }
    assert_eq!(rt; board.tell_price(769, 3), Err(Refusal::BadDay));
    assert_eq!(rt; board.tell_price(1, 3), Err(Refusal::NoRoom));
    assert_eq!(rt; board.price_of(48), Some(3));
    assert_eq!(rt; board.price_of(49), None);
    board.forget(2019)?;
    assert_eq!(rt; board.price_of(1), Some(3));
    board.forget(2020)?;
    assert_eq!(rt; board.price_of(12), None);
    assert_eq!(rt; board.price_of(13), Some(3));
    board.tell_price(12, 4)?;
    assert_eq!(rt; board.price_of(12), Some(4));
    Ok(())
}

// The final quota and the market price that the board tells for the year.
fn finals(board: &Board, year: u16) -> Option<(u32, u32)> {
    board.closing_of(year).map(|told| (told.quota, told.price))
}

#[test]
fn final_pairs_within_their_limits(rt: HostRuntime) -> Result<(), Fail> {
    let mut board = Board::new();
    assert_eq!(rt; board.tell_final(2018, 1, 1), Err(Refusal::YearNotServed));
    assert_eq!(rt;
        board.tell_final(2083, 1_000_000, 0),
        Err(Refusal::YearNotServed)
    );
    assert_eq!(rt;
        board.tell_final(2019, 1_000_000, 1),
        Err(Refusal::BadFigure)
    );
    assert_eq!(rt; board.tell_final(2019, 0, 0), Err(Refusal::BadFigure));
    assert_eq!(rt;
        board.tell_final(2019, 0, 2_000_001),
        Err(Refusal::BadFigure)
    );
    board.tell_final(2082, 0, 1)?;
    board.tell_final(2019, 999_999, 2_000_000)?;
    assert_eq!(rt; board.tell_final(2019, 0, 1), Err(Refusal::BadFigure));
    assert_eq!(rt; finals(&board, 2019), Some((999_999, 2_000_000)));
    assert_eq!(rt; finals(&board, 2082), Some((0, 1)));
    assert_eq!(rt; finals(&board, 2020), None);
    Ok(())
}

#[test]
fn room_for_eight_final_pairs(rt: HostRuntime) -> Result<(), Fail> {
    let mut board = Board::new();
    for year in 2019..2027 {
        board.tell_final(year, 1, 2)?;
    }
    assert_eq!(rt; board.tell_final(2083, 1, 2), Err(Refusal::YearNotServed));
    assert_eq!(rt; board.tell_final(2027, 1_000_000, 2), Err(Refusal::NoRoom));
    board.forget(2021)?;
    assert_eq!(rt; finals(&board, 2020), None);
    assert_eq!(rt; finals(&board, 2021), Some((1, 2)));
    board.tell_final(2027, 3, 4)?;
    board.tell_final(2020, 5, 6)?;
    assert_eq!(rt; finals(&board, 2020), Some((5, 6)));
    assert_eq!(rt; board.tell_final(2019, 7, 8), Err(Refusal::NoRoom));
    Ok(())
}

#[test]
fn a_quota_over_new_year_is_not_forgotten(rt: HostRuntime) -> Result<(), Fail> {
    let mut board = Board::new();
    board.tell_quota(100, 1)?;
    board.tell_quota(365, 2)?;
    board.tell_quota(732, 3)?;
    assert_eq!(rt; board.forget(2018), Err(Refusal::YearNotServed));
    assert_eq!(rt; board.forget(2083), Err(Refusal::YearNotServed));
    assert_eq!(rt; board.quota_on(100), Some(1));
    board.forget(2020)?;
    assert_eq!(rt; board.quota_on(364), None);
    assert_eq!(rt; board.quota_on(365), Some(2));
    assert_eq!(rt; board.quota_on(731), Some(2));
    board.forget(2021)?;
    assert_eq!(rt; board.quota_on(731), None);
    assert_eq!(rt; board.quota_on(732), Some(3));
    board.forget(2082)?;
    assert_eq!(rt; board.tell_quota(732, 4), Err(Refusal::BadFigure));
    assert_eq!(rt; board.quota_on(732), Some(3));
    Ok(())
}
