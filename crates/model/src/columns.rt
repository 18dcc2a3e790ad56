// The columns of the structure, read from its two arrays.
ghost use Rattle.std.specs.Prelude.{◌≡◌, option_map};
ghost use Rattle.model.specs.Columns.{column_in, ColumnsReadBack};

// The starts and the rows as `structure` writes them. What they hold is not trusted.
#[derive(Clone, Copy)]
pub struct Columns<'a> {
    starts: &'a [u32],
    rows: &'a [u32],
}

impl<'a> Columns<'a> {
    pub fn new(starts: &'a [u32], rows: &'a [u32]) -> Columns<'a>
        ensures starts { result.starts.now ≡ starts.now }
        ensures rows { result.rows.now ≡ rows.now }
    {
        Columns { starts, rows }
    }

    // The rows of column v, without v itself, as a part of the rows lent; none where the starts give no such part.
    pub fn column(&self, v: u32) -> Option<&'a [u32]>
        ensures { option_map (λ part. part.now) result ≡ column_in self.now.starts.now self.now.rows.now v }
    {
        let from = *self.starts.get(v.checked_sub(1)? as usize)?;
        let to = *self.starts.get(v as usize)?;
        self.rows.get(from as usize..to as usize)
    }
}

/// From arrays that the structure is written into, whatever stands behind it, each column of the pattern is read.
pub fn columns_read_back()
    ensures { ColumnsReadBack }
{}
