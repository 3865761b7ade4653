//! The rows of the tables of exits.

ghost use Rattle.std.specs.Prelude.{◌≡◌, ◌<◌, All, length};
ghost use Rattle.foreign_scan.specs.Form.{IsForeign};
ghost use Rattle.foreign_scan.specs.Rows.{rows_in, has_rows, all_have_rows, stub_has_rows, is_sound, IsFirstUnsound, StubIsForeign, SiteIsForeign};

use crate::fragment::ForeignFragment;
use crate::site::Site;
use crate::stub::StubFragments;
use elf_image::ImageView;

/// Whether the rows of a table up to the last one lie in the keyed segment.
fn rows_lie(view: &ImageView<'_>, table: u32, last: u32) -> bool
    ensures { result ≡ rows_in view.now.keyed_segment table last }
{
    match view.keyed() {
        Some(keyed) => {
            table % 4 == 0
                && keyed.range.from <= table
                && u64::from(table) + 4 * u64::from(last) + 3 < u64::from(keyed.range.to)
        }
        None => false,
    }
}

/// Whether the rows of a fragment's table lie in the keyed segment, up to the one of its counter's limit.
fn fragment_has_rows(view: &ImageView<'_>, limits: &[u32], fragment: &ForeignFragment) -> bool
    requires size { length limits.now ≡ 512 }
    requires foreign { IsForeign fragment.now }
    ensures { result ≡ has_rows view.now limits.now fragment.now }
{
    match *fragment {
        ForeignFragment::Exit {
            counter,
            shift,
            table,
        } => rows_lie(view, table, limits[usize::from(counter)] >> shift),
        _ => true,
    }
}

fn fragments_have_rows(view: &ImageView<'_>, limits: &[u32], fragments: &[ForeignFragment]) -> bool
    requires size { length limits.now ≡ 512 }
    requires foreign { All IsForeign fragments.now }
    ensures { result ≡ all_have_rows view.now limits.now fragments.now }
{
    for fragment in fragments {
        if !fragment_has_rows(view, limits, fragment) {
            return false;
        }
    }
    true
}

fn rows_of_stub(view: &ImageView<'_>, limits: &[u32], stub: &StubFragments) -> bool
    requires size { length limits.now ≡ 512 }
    requires foreign { StubIsForeign stub.now }
    ensures { result ≡ stub_has_rows view.now limits.now stub.now }
{
    match stub {
        StubFragments::Branch { untaken, taken } => {
            fragments_have_rows(view, limits, untaken) && fragments_have_rows(view, limits, taken)
        }
        StubFragments::Jump { fragments } => fragments_have_rows(view, limits, fragments),
    }
}

/// Whether the word of a node is the original's, or leads to a stub whose rows lie in the keyed segment.
fn site_is_sound(view: &ImageView<'_>, limits: &[u32], site: &Site) -> bool
    requires size { length limits.now ≡ 512 }
    requires foreign { SiteIsForeign site.now }
    ensures { result ≡ is_sound view.now limits.now site.now }
{
    match site {
        Site::Same => true,
        Site::Broken => false,
        Site::Kept(stub) => rows_of_stub(view, limits, stub),
    }
}

/// The first node of which that isn't so.
pub fn first_unsound(view: &ImageView<'_>, limits: &[u32], sites: &[Site]) -> Option<usize>
    requires size { length limits.now ≡ 512 }
    requires foreign { All SiteIsForeign sites.now }
    ensures { IsFirstUnsound view.now limits.now sites.now result }
{
    for k in 0..sites.len() {
        if !site_is_sound(view, limits, &sites[k]) {
            return Some(k);
        }
    }
    None
}
