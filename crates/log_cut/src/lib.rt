// What is left of a log that was cut short on the way (document 02, Q-11), and what follows from it. No code.
