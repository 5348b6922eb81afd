// A row.

/// A row: the name of a call, its arguments, and the result that is wanted.
#[derive(Drop)]
pub struct Row<'a> {
    pub call: &'a str,
    pub arguments: &'a str,
    pub result: &'a str,
}

impl<'a> Row<'a> {
    /// The row of a line, if it has the form of one.
    pub fn of(line: &'a str) -> Option<Row<'a>> {
        let (front, result) = line.split_once(" => ")?;
        let (call, arguments) = front.split_once(' ')?;
        Some(Row {
            call,
            arguments,
            result,
        })
    }
}
