// What a site is given that is no message, beside the kinds of messages: constants as these, by 01's list of forms.
pub const BEGIN: u8 = 16;

pub const TIMER: u8 = 17;
