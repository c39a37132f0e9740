// What the program prints.
use std::alloc::Global;
use std::collections::BTreeSet;
use std::fmt;
use table::{Count, Pair, Span, Sum};

// How many rows a clone has, their lowest and highest angle, and the sum of their angles.
pub(crate) type Totals = (Count, (Span, Sum));

// A number of hundredths, as a decimal fraction.
#[derive(Clone, Copy)]
pub(crate) struct Hundredths(i64);

impl From<u32> for Hundredths {
    fn from(number: u32) -> Hundredths {
        Hundredths(i64::from(number))
    }
}

impl From<i32> for Hundredths {
    fn from(number: i32) -> Hundredths {
        Hundredths(i64::from(number))
    }
}

impl fmt::Display for Hundredths {
    fn fmt<W: fmt::Write>(&self, f: &mut fmt::Formatter<W>) -> fmt::Result {
        let size = self.0.unsigned_abs();
        let whole = size / 100;
        let part = size % 100;
        let sign = if self.0 < 0 { "-" } else { "" };
        write!(f, "{sign}{whole}.{part:02}")
    }
}

// The rows that a clone lists.
#[derive(Drop)]
pub(crate) struct Column {
    pub(crate) clone: u32,
    pub(crate) rows: Vec<Pair>,
}

impl Column {
    // The angle of the row with a speed; the rows ascend.
    fn angle(&self, speed: u32) -> Option<i32> {
        let place = self.rows.binary_search_by_key(&speed, |row| row.speed);
        let row = self.rows.get(place.ok()?)?;
        Some(row.angle)
    }
}

// The clones' rows side by side: a line for each speed that one of them has.
pub(crate) fn print_columns(
    rt: &HostRuntime,
    heap: Global,
    columns: &[Column],
) -> anyhow::Result<()> {
    let mut speeds = BTreeSet::new(heap);
    print!(rt; "      m/s")?;
    for column in columns {
        let clone = column.clone;
        print!(rt; "  clone {clone:>3}")?;
        for row in &column.rows {
            speeds.insert(row.speed)?;
        }
    }
    println!(rt; "")?;
    for speed in &speeds {
        print_line(rt, heap, columns, *speed)?;
    }
    Ok(())
}

fn print_line(
    rt: &HostRuntime,
    heap: Global,
    columns: &[Column],
    speed: u32,
) -> anyhow::Result<()> {
    let shown = format!(in heap; "{}", Hundredths::from(speed))?;
    print!(rt; "    {shown:>5}")?;
    for column in columns {
        match column.angle(speed) {
            None => print!(rt; "          -")?,
            Some(angle) => {
                let shown = format!(in heap; "{}", Hundredths::from(angle))?;
                print!(rt; "  {shown:>9}")?
            },
        }
    }
    println!(rt; "")?;
    Ok(())
}

pub(crate) fn print_totals(rt: &HostRuntime, totals: Totals) -> anyhow::Result<()> {
    let (Count { rows }, (Span { extent }, Sum { angles })) = totals;
    print!(rt; "{rows} rows")?;
    if let Some(extent) = extent {
        let lowest = Hundredths::from(extent.lowest);
        let highest = Hundredths::from(extent.highest);
        print!(rt; ", {lowest} to {highest} degrees")?;
    }
    let sum = Hundredths::from(angles);
    println!(rt; ", {sum} in all")?;
    Ok(())
}
