//! What came into a lot, what left it, and the amount of a merge.
use plant_base::{
    Amount, GREATEST_AMOUNT, Id, Moment, Movement, MovementKind, Part, Refusal, Text,
};
use plant_stock::{born, left, merged_total, stock_of};
use std::test::Fail;

fn id(text: &[u8]) -> Result<Id, Fail> {
    Ok(Id::read(text).ok_or("no id")?)
}

fn amount(number: u64) -> Result<Amount, Fail> {
    Ok(Amount::new(number).ok_or("no amount")?)
}

fn movement(seq: u64, kind: MovementKind, sub: u16, number: u64) -> Result<Movement, Fail> {
    let none = Text::read(b"").ok_or("no text")?;
    Ok(Movement {
        seq,
        line: 1,
        kind,
        lot: id(b"L-1")?,
        sub,
        amount: amount(number)?,
        at: Moment::zero(),
        by: none,
        note: none,
    })
}

/// A lot of 500 is divided, split and scrapped.
#[test]
fn division_is_neither_born_nor_left(rt: HostRuntime) -> Result<(), Fail> {
    let movements = [
        movement(1, MovementKind::Received, 0, 500)?,
        movement(2, MovementKind::Divided { to: 1 }, 0, 30)?,
        movement(3, MovementKind::Split { to: id(b"L-2")? }, 1, 10)?,
        movement(4, MovementKind::Scrapped, 0, 20)?,
    ];
    let (one, two) = (id(b"L-1")?, id(b"L-2")?);
    assert_eq!(rt; (born(&movements, one), left(&movements, one)), (500, 30));
    assert_eq!(rt; (born(&movements, two), left(&movements, two)), (10, 0));
    assert_eq!(rt;
        (stock_of(&movements, one, 0), stock_of(&movements, one, 1)),
        (450, 20)
    );
    Ok(())
}

fn part(sub: u16, number: u64) -> Result<Part, Fail> {
    Ok(Part {
        lot: id(b"L-1")?,
        sub,
        amount: amount(number)?,
    })
}

#[test]
fn merged_total_is_at_most_the_greatest_amount(rt: HostRuntime) -> Result<(), Fail> {
    let most = [part(0, GREATEST_AMOUNT - 1)?, part(1, 1)?];
    assert!(rt; merged_total(&most) == Ok(amount(GREATEST_AMOUNT)?));
    let more = [part(0, GREATEST_AMOUNT)?, part(1, 1)?];
    assert!(rt; merged_total(&more) == Err(Refusal::TooMuch));
    Ok(())
}
