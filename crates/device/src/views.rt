// Parts of the lent arrays: the words of the vector space, and the lecturer's page.
ghost use Rattle.std.specs.Prelude.{◌≡◌, take};
ghost use Rattle.part.specs.Places.{vector_words};
ghost use Rattle.device.specs.PageView.{page_in};

use part::Place;

const VECTORS: usize = part::VECTOR_WORDS as usize;

// The words of the vector space, or what there is of them.
#[tactic(auto, using(std::proofs::lemmas::List::take_min))]
pub(crate) fn vectors_in(general: &[u32]) -> &[u32]
    ensures { result.now ≡ take vector_words general.now }
{
    &general[..VECTORS.min(general.len())]
}

#[tactic(auto, unfolding(crate::specs::PageView::page_in))]
pub(crate) fn page_in<'a>(
    page: usize,
    general: &'a [u32],
    auxiliary: &'a [u32],
    place: Option<Place>,
) -> &'a [u32]
    ensures { result.now ≡ page_in page general.now auxiliary.now place }
{
    let Some(place) = place else {
        return &general[..0];
    };
    let flash = carrying::array_of(place.array, general, auxiliary);
    flash::page(flash, page, place.index as usize)
}
