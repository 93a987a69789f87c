// The shared count: how many codes two contexts have in common, counted as in the manual's chapter on Jaccard.
// Students read this routine beside that chapter, with docs/TWO-FINGERS.md, so it stays plain. The search counts in a
// faster way, which is proved equal to this one; the plain engine for small sites (W12) will call this one.

// The words of its contract:
ghost use Rattle.std.specs.Prelude.{◌≡◌, ◌≤◌, length, ltb};
ghost use Rattle.order.specs.Order.{Sorted};
ghost use Rattle.site.specs.Site.{shared};

// How many codes the two contexts have in common.
pub fn shared_count(xs: &[u16], ys: &[u16]) -> u16
    requires sorted { Sorted ltb xs.now × Sorted ltb ys.now }
    requires xs_len_bound { (length xs.now ≤ 4096) × (length ys.now ≤ 4096) }
    ensures { result ≡ shared xs.now ys.now }
{
    // The cards of each context lie in a row, the smallest code first.
    let left_row = xs;
    let right_row = ys;

    // A finger lies on the first card of each row: it has passed no card yet, and nothing shared is counted.
    let mut left_finger: usize = 0;
    let mut right_finger: usize = 0;
    let mut shared: u16 = 0;

    // As long as each finger is on a card:
    while left_finger < left_row.len() && right_finger < right_row.len() {
        let left_card = left_row[left_finger];
        let right_card = right_row[right_finger];
        if left_card == right_card {
            // Both fingers are on the same code: count it, and both move on.
            shared += 1;
            left_finger += 1;
            right_finger += 1;
        } else if left_card < right_card {
            // The left finger is on the smaller code: it moves on.
            left_finger += 1;
        } else {
            // The right finger is on the smaller code: it moves on.
            right_finger += 1;
        }
    }

    // A finger is past its row's end: stop.
    shared
}
