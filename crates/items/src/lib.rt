// The fixed table: the items that document 01 knows, as rows of tag, width, sign, low and high in house units.
// Every answer is the one table's, in constant time, for every tag of 64 bits.
#![tactic(auto)]

ghost use Rattle.std.specs.Prelude.{◌≡◌, true, ◌+ℤ◌};
ghost use Rattle.std.specs.Int.{w64};
ghost use Rattle.std.proofs.Common.{SFits};
ghost use Rattle.tagset.specs.Sets.{holds, count_below};
ghost use Rattle.catalogue.specs.Items.{item_of};
ghost use Rattle.catalogue.specs.Rows.{rows, entry_at, all_tags, sign_by};

use catalogue::{Entry, Item, Sign};

// House units: 10^-7 degree, mm, mm/s, 0.001 mbar, 0.001 percent, 0.001 degree C.
const TABLE: [Entry; 67] = [
    Entry(1, 2, false, 0, 0),
    Entry(2, 8, false, 0, 0),
    Entry(3, 0, false, 0, 0),
    Entry(4, 0, false, 0, 0),
    Entry(5, 2, false, 0, 3_600_000_000),
    Entry(6, 2, true, -200_000_000, 200_000_000),
    Entry(7, 2, true, -500_000_000, 500_000_000),
    Entry(8, 1, false, 0, 255_000),
    Entry(9, 1, false, 0, 255_000),
    Entry(10, 0, false, 0, 0),
    Entry(11, 0, false, 0, 0),
    Entry(12, 0, false, 0, 0),
    Entry(13, 4, true, -900_000_000, 900_000_000),
    Entry(14, 4, true, -1_800_000_000, 1_800_000_000),
    Entry(15, 2, false, -900_000, 19_000_000),
    Entry(16, 2, false, 0, 1_800_000_000),
    Entry(17, 2, false, 0, 1_800_000_000),
    Entry(18, 4, false, 0, 3_600_000_000),
    Entry(19, 4, true, -1_800_000_000, 1_800_000_000),
    Entry(20, 4, false, 0, 3_600_000_000),
    Entry(21, 4, false, 0, 5_000_000_000),
    Entry(22, 2, false, 0, 10_000_000),
    Entry(23, 4, true, -900_000_000, 900_000_000),
    Entry(24, 4, true, -1_800_000_000, 1_800_000_000),
    Entry(25, 2, false, -900_000, 19_000_000),
    Entry(26, 2, true, -750_000, 750_000),
    Entry(27, 2, true, -750_000, 750_000),
    Entry(28, 2, true, -750_000, 750_000),
    Entry(29, 2, true, -750_000, 750_000),
    Entry(30, 2, true, -750_000, 750_000),
    Entry(31, 2, true, -750_000, 750_000),
    Entry(32, 2, true, -750_000, 750_000),
    Entry(33, 2, true, -750_000, 750_000),
    Entry(34, 1, false, 0, 0),
    Entry(35, 2, false, 0, 3_600_000_000),
    Entry(36, 1, false, 0, 100_000),
    Entry(37, 2, false, 0, 5_000_000),
    Entry(38, 2, false, -900_000, 19_000_000),
    Entry(39, 1, true, -128_000, 127_000),
    Entry(55, 1, false, 0, 100_000),
    Entry(56, 1, false, 0, 255_000),
    Entry(57, 4, false, 0, 5_000_000_000),
    Entry(59, 0, false, 0, 0),
    Entry(63, 1, false, 0, 0),
    Entry(64, 2, false, 0, 3_600_000_000),
    Entry(65, 1, false, 0, 0),
    Entry(67, 4, true, -900_000_000, 900_000_000),
    Entry(68, 4, true, -1_800_000_000, 1_800_000_000),
    Entry(70, 0, false, 0, 0),
    Entry(71, 2, false, 0, 3_600_000_000),
    Entry(75, 2, false, -900_000, 19_000_000),
    Entry(78, 2, false, -900_000, 19_000_000),
    Entry(79, 2, true, -327_000, 327_000),
    Entry(80, 2, true, -327_000, 327_000),
    Entry(82, 4, true, -900_000_000, 900_000_000),
    Entry(83, 4, true, -1_800_000_000, 1_800_000_000),
    Entry(84, 4, true, -900_000_000, 900_000_000),
    Entry(85, 4, true, -1_800_000_000, 1_800_000_000),
    Entry(86, 4, true, -900_000_000, 900_000_000),
    Entry(87, 4, true, -1_800_000_000, 1_800_000_000),
    Entry(88, 4, true, -900_000_000, 900_000_000),
    Entry(89, 4, true, -1_800_000_000, 1_800_000_000),
    Entry(90, 4, true, -900_000_000, 900_000_000),
    Entry(91, 4, true, -900_000_000, 900_000_000),
    Entry(103, 0, false, -900_000, 40_000_000),
    Entry(104, 0, false, -900_000, 40_000_000),
    Entry(105, 0, false, -900_000, 40_000_000),
];

fn table() -> [Entry; 67]
    ensures { result ≡ rows }
{
    TABLE
}

fn sign_of(row: Entry) -> Sign
    requires { SFits w64 (row.3 +ℤ row.4) }
    ensures { result ≡ sign_by row }
{
    if row.2 {
        let middle = row.3 + row.4;
        if middle == 0 {
            return Sign::Marked;
        }
        return Sign::Signed;
    }
    Sign::Unsigned
}

// The row of a tag that is in the table. It is long as the table is: all indices are constants, so no row is stored into the frame.
fn row_of(tag: u64) -> Entry
    requires { holds all_tags tag ≡ true }
    ensures { result ≡ entry_at (count_below all_tags tag) }
{
    let rows = table();
    match tag {
        1 => rows[0],
        2 => rows[1],
        3 => rows[2],
        4 => rows[3],
        5 => rows[4],
        6 => rows[5],
        7 => rows[6],
        8 => rows[7],
        9 => rows[8],
        10 => rows[9],
        11 => rows[10],
        12 => rows[11],
        13 => rows[12],
        14 => rows[13],
        15 => rows[14],
        16 => rows[15],
        17 => rows[16],
        18 => rows[17],
        19 => rows[18],
        20 => rows[19],
        21 => rows[20],
        22 => rows[21],
        23 => rows[22],
        24 => rows[23],
        25 => rows[24],
        26 => rows[25],
        27 => rows[26],
        28 => rows[27],
        29 => rows[28],
        30 => rows[29],
        31 => rows[30],
        32 => rows[31],
        33 => rows[32],
        34 => rows[33],
        35 => rows[34],
        36 => rows[35],
        37 => rows[36],
        38 => rows[37],
        39 => rows[38],
        55 => rows[39],
        56 => rows[40],
        57 => rows[41],
        59 => rows[42],
        63 => rows[43],
        64 => rows[44],
        65 => rows[45],
        67 => rows[46],
        68 => rows[47],
        70 => rows[48],
        71 => rows[49],
        75 => rows[50],
        78 => rows[51],
        79 => rows[52],
        80 => rows[53],
        82 => rows[54],
        83 => rows[55],
        84 => rows[56],
        85 => rows[57],
        86 => rows[58],
        87 => rows[59],
        88 => rows[60],
        89 => rows[61],
        90 => rows[62],
        91 => rows[63],
        103 => rows[64],
        104 => rows[65],
        _ => rows[66],
    }
}

// What the catalogue has for a tag.
pub fn item_of(tag: u64) -> Option<Item>
    ensures { result ≡ item_of tag }
{
    let all = catalogue::all_tags();
    if tagset::has(all, tag) {
        let row = row_of(tag);
        return Some(Item {
            tag: row.0,
            width: row.1,
            sign: sign_of(row),
            low: row.3,
            high: row.4,
        });
    }
    None
}
