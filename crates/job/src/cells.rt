// The cells of a job into lists of their own.
ghost use Rattle.job.specs.Job.{Complete, Room, Holding, start_of};

use code::number8;

// Each cell is 17 bytes: address, tag, value. By index, since three lists are filled.
pub fn read_cells(input: &[u8], addresses: &mut [u64], tags: &mut [u8], values: &mut [u64])
    requires complete { Complete input.now }
    requires room { Room input.now addresses.old tags.old values.old }
    ensures { Holding input.now (start_of input.now).values addresses.new tags.new values.new }
{
    for i in 0..addresses.len() {
        let at = 406 + 17 * i;
        addresses[i] = number8(input, at);
        tags[i] = input[at + 8];
        values[i] = number8(input, at + 9);
    }
}
