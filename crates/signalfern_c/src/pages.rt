// A page of ids for C (document 02, [3]).
ghost use Rattle.std.specs.Prelude.{◌≡◌, length};
ghost use Rattle.format.specs.Editions.{editions};
ghost use Rattle.format.specs.Page.{place_kind, place_ordinal, place_value, page, page_reply, page_after};
ghost use Rattle.answers.specs.Words.{page_words};

use boundary::pages;

#[unsafe(no_mangle)]
pub extern "C" fn signalfern_look_up_page_to(
    bytes: &[u8],
    ids: &[u32],
    ordinals: &mut [u64],
    values: &mut [i64],
    kinds: &mut [u8],
    reply: &mut [u64; 3],
)
    ensures replies { reply.new
        ≡ page_words (length ids.now) (page_reply (page editions bytes.now ids.now (length ordinals.old)
        (length values.old) (length kinds.old))) }
    ensures ordinals_placed { ordinals.new
        ≡ page_after place_ordinal (page editions bytes.now ids.now (length ordinals.old)
        (length values.old) (length kinds.old)) ordinals.old }
    ensures values_placed { values.new
        ≡ page_after place_value (page editions bytes.now ids.now (length ordinals.old)
        (length values.old) (length kinds.old)) values.old }
    ensures kinds_placed { kinds.new
        ≡ page_after place_kind (page editions bytes.now ids.now (length ordinals.old)
        (length values.old) (length kinds.old)) kinds.old }
{
    let n = ids.len();
    let told = signalfern::look_up_page(bytes, ids, ordinals, values, kinds);
    pages::put_page(reply, told, n);
}
