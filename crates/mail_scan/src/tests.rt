// What no clause says: outside values.
mod dates;
mod names;

// The parts of a row `TEXT => NUMBER`, where `none` stands for no number.
fn row_parts(row: &str) -> Option<(&str, Option<u32>)> {
    let (text, number) = row.split_once(" => ")?;
    if number == "none" {
        return Some((text, None));
    }
    Some((text, Some(number.parse().ok()?)))
}
