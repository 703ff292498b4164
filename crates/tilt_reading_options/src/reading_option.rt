/// An option that can be bad or missing, in the order in which they are read.
#[derive(Clone, Copy, Debug, PartialEq, Eq)]
pub enum ReadingOption {
    /// `--name`, which is missing beside `--value`.
    Name,
    /// `--value`, which is missing beside `--name`.
    Value,
    /// `--tick`
    Tick,
    /// `--origin`
    Origin,
    /// `--unit`
    Unit,
    /// `--scale`
    Scale,
    /// `--max-age`
    MaxAge,
    /// `--events`
    Events,
    /// `--closed`
    Closed,
    /// `--ties`
    Ties,
    /// `--delimiter`
    Delimiter,
    /// `--decimal`
    Decimal,
    /// `--zone`
    Zone,
    /// `--fold`, which is bad without `--zone`.
    Fold,
}
