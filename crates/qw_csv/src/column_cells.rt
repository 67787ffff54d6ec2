//! The values of one column of loaded rows, lent as they are kept.

/// The values of one column in the order of the rows. In the place of null stands 0, or the empty text.
#[derive(Clone, Copy, Debug)]
pub enum ColumnCells<'a> {
    /// INTEGERs, or dates, each as year * 10000 + month * 100 + day.
    Short(&'a [i32]),
    /// DECIMALs, each as the whole number that it is at its column's scale.
    Long(&'a [i64]),
    /// Texts, their octets one after another.
    Texts {
        /// Where each text ends in the octets.
        ends: &'a [u32],
        /// The octets of all texts.
        octets: &'a [u8],
    },
}
