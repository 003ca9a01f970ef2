// The read-only rows of the ICD's Table 18, in address order, each with its own first and last address, one line for each to tick off against
// the table. TEMP_R3 is misprinted TEMP_R4 there. docs/EDAC.md has all rows, with what the ICD's prose says of them; `tools/rows` prints this
// list in the table's form.
pub const READ_ONLY: [[u16; 2]; 39] = [
    [0x00c, 0x00f], // VBUS
    [0x020, 0x023], // VCC
    [0x040, 0x043], // TEMP0
    [0x048, 0x04b], // TEMP2
    [0x04c, 0x04f], // TEMP3
    [0x054, 0x057], // SPEED
    [0x058, 0x05b], // MOMENTUM
    [0x06c, 0x06f], // HALL_DIGITAL
    [0x074, 0x077], // ADC_CALIBRATE
    [0x080, 0x083], // SPEED_P_GAIN
    [0x084, 0x087], // SPEED_I_GAIN
    [0x088, 0x08b], // SPEED_D_GAIN
    [0x100, 0x103], // PREVIOUS_SPEED
    [0x108, 0x10b], // SPEED_LAST_ERROR
    [0x12c, 0x12f], // TORQUE_T0
    [0x130, 0x133], // TORQUE_T1
    [0x134, 0x137], // TORQUE_T2
    [0x138, 0x13b], // TORQUE_T3
    [0x13c, 0x13f], // TORQUE_T4
    [0x168, 0x16b], // SLEEP_DUTY
    [0x16c, 0x16f], // DCDC_FREQ
    [0x184, 0x187], // RESPONSE_AMPLITUDE
    [0x188, 0x18b], // RESPONSE_PHASE
    [0x190, 0x193], // KT_ESTIMATE
    [0x194, 0x197], // R_ESTIMATE
    [0x19c, 0x19f], // DRY_FRICTION_ESTIMATE
    [0x1a0, 0x1a3], // WET_FRICTION_ESTIMATE
    [0x1a4, 0x1a7], // AERO_FRICTION_ESTIMATE
    [0x1a8, 0x1ab], // RUNDOWN_TIME
    [0x200, 0x203], // TEMP_R0
    [0x204, 0x207], // TEMP_R2
    [0x208, 0x20b], // TEMP_R3
    [0x20c, 0x20f], // ADC_RAW_VBUS
    [0x210, 0x213], // ADC_RAW_VCC
    [0x214, 0x217], // ADC_RAW_TEMP0
    [0x218, 0x21b], // ADC_RAW_TEMP2
    [0x21c, 0x21f], // ADC_RAW_TEMP3
    [0x220, 0x223], // ADC_RAW_CALIBRATE
    [0x5d7, 0x5d7], // FLAGS_ACTIVE
];
