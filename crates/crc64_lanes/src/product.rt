// The registers that join lanes: products, and powers of the register that 64 zero bits make of the highest bit.
ghost use Rattle.std.specs.Prelude.{◌≡◌, true, ◌*◌, ◌^◌, ◌<◌};
ghost use Rattle.crc64_lanes.specs.Product as products;

use crc64_register::POLYNOMIAL;

// Entry 0 is what 64 zero bits make of the highest bit, and each further entry is the square of the one before it.
const POWERS: [u64; 25] = [
    0xc96c_5795_d787_0f42,
    0x6d5f_4ad7_e3c3_afa0,
    0xd49f_7e44_5077_d8ea,
    0x040f_b02a_53c2_16fa,
    0x6bec_3595_7b9e_f3a0,
    0xb0e3_bb06_5896_4afe,
    0x2185_78c7_a2df_f638,
    0x6dbb_920f_24dd_5cf2,
    0x7a14_0cfc_db4d_5eb5,
    0x41b3_705e_cbc4_057b,
    0xd46a_b656_acca_c1ea,
    0x329b_eda6_fc34_fb73,
    0x51a4_fcd4_350b_9797,
    0x314f_a856_37ef_ae9d,
    0xacf2_7e9a_1518_d512,
    0xffe2_a338_8a4d_8ce7,
    0x48b9_697e_60cc_2e4e,
    0xada7_3cb7_8dd6_2460,
    0x3ea5_454d_8ce5_c1bb,
    0x5e84_e3a6_c70f_eaf1,
    0x90fd_49b6_6cbd_81d1,
    0xe294_3e0c_1db2_54e8,
    0xecfa_6ade_ca88_34a1,
    0xf513_e212_593e_e321,
    0xf36a_e573_3104_0916,
];

// The powers, each right by one test over all of them.
fn powers() -> &'static [u64; 25]
    ensures { products.are_powers result.now ≡ true }
{
    &POWERS
}

// The product of two registers.
pub fn product(a: u64, b: u64) -> u64
    ensures { result ≡ products.product a b }
{
    let mut r: u64 = 0;
    let mut left = b;
    for _ in 0..64u8 {
        r = (r / 2) ^ (r % 2 * POLYNOMIAL) ^ (left % 2 * a);
        left /= 2;
    }
    r
}

// What 64 times `count` zero bits make of the highest bit: one product for each bit 1 of the count.
pub fn shifted(count: usize) -> u64
    requires { count < 2 ^ 25 }
    ensures { result ≡ products.shifted (64 * count) }
{
    let mut r: u64 = 0x8000_0000_0000_0000;
    let mut left = count;
    for power in powers() {
        if left % 2 == 1 {
            r = product(*power, r);
        }
        left /= 2;
    }
    r
}
