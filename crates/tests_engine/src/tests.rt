mod flushed;
mod fresh;
mod kept;
mod merged;
mod opened;
mod several;
mod written;
