//! What the list of files in a message means.
ghost use Rattle.std.specs.Prelude.{◌≡◌};
ghost use Rattle.watchman_index.specs.Listings.{listing_of, is_of_all};

/// What the list of files in a message means.
#[derive(Debug, Clone, Copy, PartialEq, Eq)]
pub enum Listing {
    /// They changed, and the others are as before.
    Changed,
    /// They are all that there are, and each of them may have changed.
    All,
}

impl Listing {
    /// Returns what the list of files in a message means, by whether it is a fresh instance.
    pub fn of(is_fresh_instance: bool) -> Listing
        ensures { result ≡ listing_of is_fresh_instance }
    {
        if is_fresh_instance {
            Listing::All
        } else {
            Listing::Changed
        }
    }

    /// Returns whether the files that are listed are all that there are.
    pub fn is_of_all(self) -> bool
        ensures { result ≡ is_of_all self }
    {
        match self {
            Listing::Changed => false,
            Listing::All => true,
        }
    }
}
