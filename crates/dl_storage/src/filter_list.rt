//! The filters of the log storage, in order.

ghost use Rattle.std.specs.Prelude.{◌≡◌, ◌<◌, [], length, slice_get, Some};
ghost use Rattle.dl_storage.specs.FiltersApart.{AreFilters};

use crate::filter::Filter;
use dl_bytes::Sequence;
use std::alloc::Global;
use std::marker::Model;

/// The most filters.
pub const FILTER_LIMIT: usize = 16;

/// At most 16 filters, no two of the same name.
#[derive(Drop)]
pub struct FilterList {
    filters: Sequence<Filter>,
}

impl Model for FilterList {
    ghost use Rattle.std.specs.Prelude.{List};
    ghost use Rattle.dl_storage.specs.declared.filter.Filter.{Filter};
    ghost use Rattle.dl_storage.specs.FiltersApart.{AreFilters};

    ghost Value = { List Filter };

    ghost view = { λ f. f.filters };

    ghost invariant = { λ f. AreFilters f.filters };
}

impl FilterList {
    /// No filter: nothing is stored.
    pub fn none(alloc: Global) -> FilterList
        ensures { result ≡ [] }
    {
        FilterList {
            filters: Sequence::over(Vec::new(alloc)),
        }
    }

    /// The list of these filters.
    pub(crate) fn over(filters: Vec<Filter>) -> FilterList
        requires { AreFilters filters.items }
        ensures { result ≡ filters.items }
    {
        FilterList {
            filters: Sequence::over(filters),
        }
    }

    /// How many filters there are.
    pub fn len(&self) -> u32
        ensures { result ≡ length self.now }
    {
        self.filters.len()
    }

    /// The filter at this place, from 0.
    pub fn of(&self, place: u32) -> &Filter
        requires { place < length self.now }
        ensures { slice_get self.now place ≡ Some result.now }
    {
        self.filters.of(place)
    }

    /// All filters, in order.
    pub fn all(&self) -> &[Filter]
        ensures value { result.now ≡ self.now }
        ensures form { AreFilters self.now }
    {
        self.filters.all()
    }
}
